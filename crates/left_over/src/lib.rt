// The leftover links of an empty ear (Note 2 of document 02) on lent slices: what it marks as used, by one scan of the links.
// A number past the end of a table reads as 0, and a mark past it changes nothing.
#![tactic(auto)]

ghost use Rattle.std.specs.Prelude.{◌≡◌, not, ◌&&◌, cond, set};
ghost use Rattle.mondschein.specs.Network.{at};
ghost use Rattle.network.specs.Load.{table_of};
ghost use Rattle.rows.specs.Rows.{marked};
ghost use Rattle.left_over.specs.LeftOver.{used_after_empty};

// Link l from a to b is used, where it was unused and both are born.
fn take_link(l: usize, a: u16, b: u16, births: &[u16], used: &mut [u8])
    ensures { used.new ≡ set used.old l (cond (not (marked used.old l) && (marked births.now a && marked births.now b)) 1 (at used.old l)) }
{
    let unused = rows::mark_at(used, l) == 0;
    if unused && rows::entry(births, a) != 0 && rows::entry(births, b) != 0 {
        rows::mark(used, l);
    }
}

// An empty ear: the leftover links are used, by one scan of the links.
#[tactic(auto, using(crate::proofs::LeftOver::taken_more), unfolding(crate::specs::LeftOver::used_after_empty, rows::specs::Rows::assigned, mondschein::specs::Network::size))]
pub fn take_left_over(links: &[u16], births: &[u16], used: &mut [u8])
    ensures { used.new ≡ used_after_empty (table_of links.now) births.now used.old }
{
    let m = links.len() / 2;
    for l in 0..m {
        take_link(l, links[2 * l], links[2 * l + 1], births, used);
    }
}
