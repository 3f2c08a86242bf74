// The switches that are still unborn after an ear: whether one other than last is left, and check 16 of an ear's new switches.
// Births are lent as marks, 0 for unborn.
#![tactic(auto)]

ghost use Rattle.std.specs.Prelude.{◌≡◌, not, ◌&&◌, ◌||◌, ◌+◌, ◌*◌, ◌<◌, eqb, ltb, length, unwrap_or, IfSome};
ghost use Rattle.mondschein.specs.Network.{low, any, at, holds, joined};
ghost use Rattle.network.specs.Index.{IndexedFrom, Indexed};
ghost use Rattle.network.specs.Load.{table_of};
ghost use Rattle.rows.specs.Rows.{marked};
ghost use Rattle.shape.specs.Shape.{MarksOf};
ghost use Rattle.unborn.specs.Neighbours.{leads_to};

// Switch x is still unborn after the ear.
#[tactic(auto, unfolding(mondschein::specs::Network::holds))]
fn unborn(births: &[u16], ear: &[u16], marks: &[u8], x: u16) -> bool
    requires { MarksOf ear.now (length ear.now) marks.now }
    ensures { result ≡ not (marked births.now x || holds ear.now x) }
{
    rows::entry(births, x) == 0 && !shape::among(ear, ear.len(), marks, x)
}

// 15: a switch below n other than last is still unborn after the ear.
pub fn other_unborn(n: u16, last: u16, births: &[u16], ear: &[u16]) -> bool
    ensures { result ≡ any (λ x. not (eqb x last) && not (marked births.now x || holds ear.now x)) n }
{
    (0..n).any(|x| x != last && unborn(births, ear, &[], x))
}

// Switch x is below n and still unborn after the ear.
fn unborn_below(n: u16, births: &[u16], ear: &[u16], marks: &[u8], x: u16) -> bool
    requires { MarksOf ear.now (length ear.now) marks.now }
    ensures { result ≡ (ltb x n && not (marked births.now x || holds ear.now x)) }
{
    x < n && unborn(births, ear, marks, x)
}

// Link i leads from v to a switch below n that is still unborn after the ear.
#[tactic(auto, unfolding(crate::specs::Neighbours::leads_to, mondschein::specs::Network::former, mondschein::specs::Network::latter))]
fn leads_to_unborn(
    n: u16,
    links: &[u16],
    births: &[u16],
    ear: &[u16],
    marks: &[u8],
    v: u16,
    i: usize,
) -> bool
    requires { (2 * i + 1 < length links.now) × MarksOf ear.now (length ear.now) marks.now }
    ensures { result ≡ leads_to (table_of links.now) (λ x. ltb x n && not (marked births.now x || holds ear.now x)) v i }
{
    let x = links[2 * i];
    let y = links[2 * i + 1];
    (x == v && unborn_below(n, births, ear, marks, y))
        || (y == v && unborn_below(n, births, ear, marks, x))
}

// A neighbour of v below n is still unborn after the ear: one scan of the links.
fn unborn_by_scan(n: u16, links: &[u16], births: &[u16], ear: &[u16], marks: &[u8], v: u16) -> bool
    requires { MarksOf ear.now (length ear.now) marks.now }
    ensures { result ≡ any (λ x. joined (table_of links.now) v x && not (marked births.now x || holds ear.now x)) n }
{
    (0..links.len() / 2).any(|i| leads_to_unborn(n, links, births, ear, marks, v, i))
}

// A neighbour of v below n is still unborn after the ear: along the half-links of v.
fn unborn_along(
    n: u16,
    links: &[u16],
    index: &[u16],
    births: &[u16],
    ear: &[u16],
    marks: &[u8],
    v: u16,
) -> bool
    requires { IndexedFrom (table_of links.now) 0 index.now × (v < 1024) × MarksOf ear.now (length ear.now) marks.now }
    ensures { result ≡ any (λ x. joined (table_of links.now) v x && not (marked births.now x || holds ear.now x)) n }
{
    network::half_link_to(links, index, v, |x| unborn_below(n, births, ear, marks, x)).is_some()
}

// A neighbour of v below n is still unborn after the ear: along the half-links of v, or by a scan.
fn unborn_neighbour(
    n: u16,
    links: &[u16],
    index: &[u16],
    births: &[u16],
    ear: &[u16],
    marks: &[u8],
    v: u16,
) -> bool
    requires { Indexed (table_of links.now) index.now × MarksOf ear.now (length ear.now) marks.now }
    ensures { result ≡ any (λ x. joined (table_of links.now) v x && not (marked births.now x || holds ear.now x)) n }
{
    if !network::is_index(index) || 1024 <= v {
        return unborn_by_scan(n, links, births, ear, marks, v);
    }
    unborn_along(n, links, index, births, ear, marks, v)
}

// The first new switch, other than last, that keeps no unborn neighbour, by the marks of the ear.
fn first_cut_off_by(
    n: u16,
    last: u16,
    links: &[u16],
    index: &[u16],
    births: &[u16],
    ear: &[u16],
    marks: &[u8],
    new: &[u16],
) -> Option<usize>
    requires { Indexed (table_of links.now) index.now × MarksOf ear.now (length ear.now) marks.now }
    ensures lowest { unwrap_or result (length new.now) ≡ low (λ k. not (eqb (at new.now k) last) && not (any (λ x. joined (table_of links.now) (at new.now k) x && not (marked births.now x || holds ear.now x)) n)) (length new.now) }
    ensures within { IfSome result (λ k. k < length new.now) }
{
    new.iter().position(|v| *v != last
        && !unborn_neighbour(n, links, index, births, ear, marks, *v))
}

// 16: the first new switch, other than last, that keeps no unborn neighbour. A short ear is searched, a longer one marked.
pub fn first_cut_off(
    n: u16,
    last: u16,
    links: &[u16],
    index: &[u16],
    births: &[u16],
    ear: &[u16],
    new: &[u16],
) -> Option<usize>
    requires { Indexed (table_of links.now) index.now }
    ensures lowest { unwrap_or result (length new.now) ≡ low (λ k. not (eqb (at new.now k) last) && not (any (λ x. joined (table_of links.now) (at new.now k) x && not (marked births.now x || holds ear.now x)) n)) (length new.now) }
    ensures within { IfSome result (λ k. k < length new.now) }
{
    if ear.len() < 16 {
        return first_cut_off_by(n, last, links, index, births, ear, &[0u8; 0], new);
    }
    let mut marks = [0u8; 1024];
    shape::mark_all(ear, &mut marks);
    first_cut_off_by(n, last, links, index, births, ear, &marks, new)
}
