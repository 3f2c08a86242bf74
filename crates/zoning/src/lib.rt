// The zones of a closed session (document 02, Note 4): root, first and last in zones 1, 2 and 3 of the sizes wanted, each zone connected.
// The session is only read, by value or in place.
#![tactic(auto)]

ghost use Rattle.std.specs.Prelude.{◌≡◌, length};
ghost use Rattle.zones.specs.Sizing.{wrong_sizes};
ghost use Rattle.zoning.specs.Zoning.{zoned_answer, zoned_by, ZonesIn};

use in_place::{Session, State};
use refusals::Refusal;

// Check 24: a size is 0, or the sizes do not add up to N.
#[tactic(auto, unfolding(zones::specs::Sizing::wrong_sizes))]
fn wrong_sizes(n: u16, n1: u16, n2: u16, n3: u16) -> bool
    ensures { result ≡ wrong_sizes n n1 n2 n3 }
{
    n1 == 0 || n2 == 0 || n3 == 0 || (n1 as usize) + (n2 as usize) + (n3 as usize) != (n as usize)
}

// The zones by switch number in the first N places of the slice: 19 on an empty session, 21 on an open one, then 24 and 18.
pub fn zones_in(
    st: State,
    births: &[u16],
    order: &[u16],
    n1: u16,
    n2: u16,
    n3: u16,
    out: &mut [u16],
) -> Result<(), Refusal>
    requires { (length births.now ≡ 1024) × (length order.now ≡ 1024) }
    ensures { ZonesIn st births.now order.now n1 n2 n3 out.old result out.new }
{
    st.stage.require_closed()?;
    if wrong_sizes(st.n, n1, n2, n3) {
        return Err(Refusal::WrongSizes);
    }
    let places = st.n as usize;
    if out.len() < places {
        return Err(Refusal::TooShort);
    }
    let born = rows::prefix(order, st.born as usize);
    let switches = rows::prefix(births, places);
    cutting::set_zones(&mut out[..places], born, switches, n1, n2);
    Ok(())
}

// The same, of a session by value.
pub fn zones(s: Session, n1: u16, n2: u16, n3: u16, out: &mut [u16]) -> Result<(), Refusal>
    ensures { (zoned_answer result ≡ (zoned_by s n1 n2 n3 out.old).answer) × (out.new ≡ (zoned_by s n1 n2 n3 out.old).after) }
{
    let births = s.births;
    let order = s.order;
    zones_in(session::state_of(s), &births, &order, n1, n2, n3, out)
}
