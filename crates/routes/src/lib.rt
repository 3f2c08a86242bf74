// Three routes between two switches of a session that has loaded a network, open or closed, or what parts the two (document 02, Note 8).
// The session is only read, by value or in place.
#![tactic(auto)]

ghost use Rattle.std.specs.Prelude.{◌≡◌, length};
ghost use Rattle.disjoint.specs.Replies.{routes_into};
ghost use Rattle.routing.specs.Answers.{told_by};
ghost use Rattle.routes.specs.Calls.{links_as, between_by, BetweenIn};

use in_place::{Session, Stage, State};
use network::MAX_SWITCHES;
use refusals::Refusal;
use routing::Routes;

// On a session that has loaded a network: 26, then 18, then the answer.
fn between_loaded(
    st: State,
    links: &[u16],
    from: u16,
    to: u16,
    out: &mut [u16],
) -> Result<Routes, Refusal>
    requires { length links.now ≡ 8192 }
    ensures { told_by result out.new ≡ routes_into (links_as st.n st.m links.now) from to out.old }
{
    let n = st.n.min(MAX_SWITCHES);
    let table = in_place::stored(st.m, links);
    routing::routes_between(n, table, from, to, out)
}

// Three walks from one switch to another at the start of the slice, or what parts the two: 19 on an empty session, then 26 and 18.
pub fn between_in(
    st: State,
    links: &[u16],
    from: u16,
    to: u16,
    out: &mut [u16],
) -> Result<Routes, Refusal>
    requires { length links.now ≡ 8192 }
    ensures { BetweenIn st links.now from to out.old result out.new }
{
    match st.stage {
        Stage::Empty => Err(Refusal::SessionEmpty),
        Stage::Open | Stage::Closed => between_loaded(st, links, from, to, out),
    }
}

// The same, of a session by value.
pub fn between(s: Session, from: u16, to: u16, out: &mut [u16]) -> Result<Routes, Refusal>
    ensures { told_by result out.new ≡ between_by s from to out.old }
{
    let links = s.links;
    between_in(session::state_of(s), &links, from, to, out)
}
