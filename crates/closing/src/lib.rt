// What close asks on lent slices: check 23.
// A mark past the end of the used links reads as 0.
#![tactic(auto)]

ghost use Rattle.std.specs.Prelude.{◌≡◌, ◌≤◌, length};
ghost use Rattle.mondschein.specs.Judge.{closing};
ghost use Rattle.network.specs.Load.{table_of};
ghost use Rattle.rows.specs.Rows.{marked};
ghost use Rattle.closing.specs.Closing.{close_answer};

use refusals::Refusal;

// 23: closed, or the lowest unused link. At most 4,096 links, so that its place fits.
pub fn check_used(links: &[u16], used: &[u8]) -> Result<(), Refusal>
    requires { length links.now ≤ 8193 }
    ensures { close_answer result ≡ closing (table_of links.now) (marked used.now) }
{
    let m = links.len() / 2;
    for i in 0..m {
        if rows::mark_at(used, i) == 0 {
            return Err(Refusal::UnusedLink(i as u16));
        }
    }
    Ok(())
}
