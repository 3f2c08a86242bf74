// The tables of a session on lent slices: what one accepted ear changes in them.
// A number past the end of a table changes nothing.
#![tactic(auto)]

ghost use Rattle.std.specs.Prelude.{◌≡◌, true, false, cond, [], suc, pred, ◌≤◌, length, take};
ghost use Rattle.mondschein.specs.Network.{at, link_of};
ghost use Rattle.mondschein.specs.Order.{between, extend};
ghost use Rattle.network.specs.Index.{Indexed};
ghost use Rattle.network.specs.Load.{table_of};
ghost use Rattle.order.specs.Placed.{placed, placed_count};
ghost use Rattle.rows.specs.Rows.{assigned};
ghost use Rattle.tables.specs.Tables.{used_after, longs_after, births_after, neighbours, tree1_after, tree2_after, tables_of, after_ear, TakesShort};

// Marks the links between two neighbours of the ear.
#[tactic(auto, using(rows::proofs::Assigned::assigned_more), unfolding(rows::specs::Rows::assigned, mondschein::specs::Network::size))]
fn mark_along(links: &[u16], index: &[u16], ear: &[u16], used: &mut [u8])
    requires { Indexed (table_of links.now) index.now }
    ensures { used.new ≡ assigned used.old (λ k. link_of (table_of links.now) (at ear.now k) (at ear.now (suc k))) (λ k. 1) (pred (length ear.now)) }
{
    let m = links.len() / 2;
    let steps = ear.len().saturating_sub(1);
    for k in 0..steps {
        let l = network::link_by(links, index, ear[k], ear[k + 1]);
        rows::mark(used, l.unwrap_or(m));
    }
}

// Marks the links of an ear, and of a first ear its closing link.
#[tactic(auto, unfolding(crate::specs::Tables::used_after, mondschein::specs::Network::size))]
fn mark_ear(links: &[u16], index: &[u16], initial: bool, ear: &[u16], used: &mut [u8])
    requires { (2 ≤ length ear.now) × Indexed (table_of links.now) index.now }
    ensures { used.new ≡ used_after (table_of links.now) initial ear.now used.old }
{
    mark_along(links, index, ear, used);
    if initial {
        let len = ear.len();
        let l = network::link_by(links, index, ear[len - 1], ear[0]);
        rows::mark(used, l.unwrap_or(links.len() / 2));
    }
}

// The new switches are born in long ear b.
#[tactic(auto, using(rows::proofs::Assigned::assigned_more), unfolding(rows::specs::Rows::assigned, crate::specs::Tables::births_after))]
fn set_births(new: &[u16], b: u16, births: &mut [u16])
    ensures { births.new ≡ births_after b new.now births.old }
{
    for v in new {
        rows::store(births, *v, b);
    }
}

// Each switch between the ends of an ear gets its neighbour in the ear, the former for d = 0, the latter for d = 2.
#[tactic(auto, using(rows::proofs::Assigned::assigned_more), unfolding(rows::specs::Rows::assigned, crate::specs::Tables::neighbours))]
fn set_neighbours(ear: &[u16], d: usize, row: &mut [u16])
    requires { d ≤ 2 }
    ensures { row.new ≡ neighbours ear.now d row.old }
{
    let between = ear.len().saturating_sub(2);
    for k in 0..between {
        rows::store(row, ear[k + 1], ear[k + d]);
    }
}

// Trees 1 and 2 of a first ear: along it towards root and towards first; root for the root itself and for first in tree 2.
#[tactic(auto, unfolding(crate::specs::Tables::tree1_after, crate::specs::Tables::tree2_after))]
fn set_first_parents(ear: &[u16], tree1: &mut [u16], tree2: &mut [u16])
    requires { 2 ≤ length ear.now }
    ensures { (tree1.new ≡ tree1_after true [] ear.now tree1.old) × (tree2.new ≡ tree2_after true [] ear.now tree2.old) }
{
    let len = ear.len();
    let root = ear[0];
    let first = ear[len - 1];
    set_neighbours(ear, 0, tree1);
    rows::store(tree1, first, ear[len - 2]);
    rows::store(tree1, root, root);
    set_neighbours(ear, 2, tree2);
    rows::store(tree2, first, root);
    rows::store(tree2, root, root);
}

// Trees 1 and 2 of a later ear, written from A to B, or from B to A.
fn set_later_parents(upward: bool, ear: &[u16], tree1: &mut [u16], tree2: &mut [u16])
    ensures { (tree1.new ≡ neighbours ear.now (cond upward 0 2) tree1.old) × (tree2.new ≡ neighbours ear.now (cond upward 2 0) tree2.old) }
{
    let (towards_a, towards_b) = if upward { (0, 2) } else { (2, 0) };
    set_neighbours(ear, towards_a, tree1);
    set_neighbours(ear, towards_b, tree2);
}

// The number of long ears after one more ear; it stops at the limit of N.
#[tactic(auto, unfolding(crate::specs::Tables::longs_after))]
fn count_long(longs: u16, ear: &[u16]) -> u16
    ensures { result ≡ longs_after longs ear.now }
{
    if ear.len() == 2 || network::MAX_SWITCHES <= longs {
        longs
    } else {
        longs + 1
    }
}

// A first ear: births in long ear b, trees 1 and 2, and the order, with its count.
fn accept_first(
    b: u16,
    ear: &[u16],
    births: &mut [u16],
    order: &mut [u16],
    tree1: &mut [u16],
    tree2: &mut [u16],
) -> u16
    requires { (2 ≤ length ear.now) × (length order.old ≤ 1024) }
    ensures { (births.new ≡ births_after b ear.now births.old) × (tree1.new ≡ tree1_after true [] ear.now tree1.old) × (tree2.new ≡ tree2_after true [] ear.now tree2.old) × (result ≡ placed_count ear.now order.old 0) × (order.new ≡ placed ear.now order.old) }
{
    set_births(ear, b, births);
    set_first_parents(ear, tree1, tree2);
    order::begin(order, ear)
}

// The same of a later ear, with one search for its place; an ear of two numbers changes none of them.
fn accept_later(
    b: u16,
    born: u16,
    ear: &[u16],
    births: &mut [u16],
    order: &mut [u16],
    tree1: &mut [u16],
    tree2: &mut [u16],
) -> u16
    requires { (2 ≤ length ear.now) × (1 ≤ born) × (length order.old ≡ 1024) }
    ensures { (births.new ≡ births_after b (between ear.now) births.old) × (tree1.new ≡ tree1_after false (take born order.old) ear.now tree1.old) × (tree2.new ≡ tree2_after false (take born order.old) ear.now tree2.old) × (result ≡ placed_count (extend (take born order.old) ear.now) order.old born) × (order.new ≡ placed (extend (take born order.old) ear.now) order.old) }
{
    let len = ear.len();
    if len == 2 {
        return order::same_count(order, born);
    }
    set_births(&ear[1..len - 1], b, births);
    let place = order::place_of(order, born, ear);
    set_later_parents(place.upward, ear, tree1, tree2);
    order::insert(order, born, ear, place)
}

// The counts that an ear leaves: of the long ears, and of the switches in the order.
#[derive(Clone, Copy)]
pub struct Counts {
    pub longs: u16,
    pub born: u16,
}

// Writes an accepted ear into the tables.
pub fn accept(
    links: &[u16],
    index: &[u16],
    ear: &[u16],
    longs: u16,
    born: u16,
    used: &mut [u8],
    births: &mut [u16],
    order: &mut [u16],
    tree1: &mut [u16],
    tree2: &mut [u16],
) -> Counts
    requires { (2 ≤ length ear.now) × (length order.old ≡ 1024) × Indexed (table_of links.now) index.now }
    ensures { tables_of used.new result.longs births.new result.born order.new tree1.new tree2.new ≡ after_ear (table_of links.now) ear.now (tables_of used.old longs births.old born order.old tree1.old tree2.old) }
{
    let initial = born == 0;
    let longs = count_long(longs, ear);
    mark_ear(links, index, initial, ear, used);
    let born = if initial {
        accept_first(longs, ear, births, order, tree1, tree2)
    } else {
        accept_later(longs, born, ear, births, order, tree1, tree2)
    };
    Counts { longs, born }
}

// Writes an accepted later ear of two numbers into the tables: its link is used. Gives the count of the order, which stays.
pub fn accept_short(link: usize, born: u16, used: &mut [u8], order: &[u16]) -> u16
    requires { (1 ≤ born) × (length order.now ≡ 1024) }
    ensures { TakesShort link born used.old order.now result used.new }
{
    rows::mark(used, link);
    order::same_count(order, born)
}
