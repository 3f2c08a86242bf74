// Link tables lent as plain numbers, two for each link: the lowest link between two switches, and checks 2 to 6 of loading.
// A table of 2 M or 2 M + 1 numbers has M links.
#![tactic(auto)]

ghost use Rattle.std.specs.Prelude.{◌≡◌, [], ℕ, Bool, suc, min, ◌+◌, ◌*◌, ◌/◌, ◌≤◌, ◌<◌, eqb, length, unwrap_or, IfSome};
ghost use Rattle.mondschein.specs.Network.{low, size, joins, joined, link_of};
ghost use Rattle.mondschein.specs.Judge.{loading_by, link_too_large, self_link, repeated_link, wrong_names};
ghost use Rattle.network.specs.Index.{far_end, FirstLeading, IndexedFrom, Indexed, Cleared};
ghost use Rattle.network.specs.Load.{network_of, table_of, load_answer, name_order, table_order};

use refusals::Refusal;

// Document 01's limits of N and of M.
pub const MAX_SWITCHES: u16 = 1024;

pub const MAX_LINKS: u16 = 4096;

// The length of an index of half-links: two numbers for each switch, and two for each link.
pub const INDEX_LENGTH: usize = 2 * (MAX_SWITCHES as usize) + 2 * (MAX_LINKS as usize);

// What load answers of a network that passes every check: N and M.
#[derive(Clone, Copy, Debug, PartialEq, Eq)]
pub struct Loaded {
    pub switches: u16,
    pub links: u16,
}

// Link i joins a and b, in either writing. An end is read where it is asked for, so that most links cost two comparisons.
#[tactic(auto, unfolding(mondschein::specs::Network::joins, mondschein::specs::Network::former, mondschein::specs::Network::latter))]
fn link_joins(links: &[u16], i: usize, a: u16, b: u16) -> bool
    requires { 2 * i + 1 < length links.now }
    ensures { result ≡ joins (table_of links.now) i a b }
{
    (links[2 * i] == a && links[2 * i + 1] == b) || (links[2 * i] == b && links[2 * i + 1] == a)
}

// The lowest link that joins a and b. It is kept a function of its own, so that the scan of a table has the registers to itself.
#[inline(never)]
pub fn link_of(links: &[u16], a: u16, b: u16) -> Option<usize>
    ensures lowest { unwrap_or result (size (table_of links.now)) ≡ link_of (table_of links.now) a b }
    ensures within { IfSome result (λ i. i < size (table_of links.now)) }
{
    (0..links.len() / 2).find(|&i| link_joins(links, i, a, b))
}

// The index of a table's half-links, in a lent slice of 10,240 numbers. Number h of the table is half-link h; it is of link h / 2, and
// leads from its own switch to the link's other end. With M links:
//   index[v]          the lowest half-link of switch v, or 2 M
//   index[1024 + v]   how many v has; it only says which chain is the shorter, and no promise speaks of it
//   index[2048 + h]   the next half-link after h of the same switch, or 2 M
// A slice of another length is no index: what would use it scans the table.

// The slice has the length of an index.
pub fn is_index(index: &[u16]) -> bool
    ensures { result ≡ eqb (length index.now) 10240 }
{
    index.len() == INDEX_LENGTH
}

// The switch that half-link h leads to: the two of a link differ in the last binary digit of their numbers.
pub fn far_end(links: &[u16], h: usize) -> u16
    requires { 2 * (h / 2) + 1 < length links.now }
    ensures { result ≡ far_end (table_of links.now) h }
{
    links[h ^ 1]
}

// One more half-link; a count stops at 8,192.
fn one_more(count: u16) -> u16
    ensures { result ≡ min (suc count) 8192 }
{
    count.saturating_add(1).min(8192)
}

// Puts half-link h before the later ones of its switch.
fn index_half(links: &[u16], h: usize, index: &mut [u16])
    requires { IndexedFrom (table_of links.now) (suc h) index.old × (h < 2 * size (table_of links.now)) }
    ensures { IndexedFrom (table_of links.now) h index.new }
{
    let v = links[h] as usize;
    if 1024 <= v {
        return;
    }
    index[2048 + h] = index[v];
    index[v] = h as u16;
    index[1024 + v] = one_more(index[1024 + v]);
}

// No switch has a half-link: each leads past the last one.
fn clear_index(end: u16, index: &mut [u16])
    requires { length index.old ≡ 10240 }
    ensures { Cleared end index.new }
{
    index[..1024].fill(end);
    index[1024..2048].fill(0);
}

// Puts every half-link into a cleared index, the last one first.
fn fill_index(links: &[u16], index: &mut [u16])
    requires { IndexedFrom (table_of links.now) (2 * size (table_of links.now)) index.old }
    ensures { IndexedFrom (table_of links.now) 0 index.new }
{
    for h in (0..2 * (links.len() / 2)).rev() {
        index_half(links, h, index);
    }
}

// Makes the index of a table.
pub fn make_index(links: &[u16], index: &mut [u16])
    requires { length links.now ≤ 8193 }
    ensures { Indexed (table_of links.now) index.new }
{
    if !is_index(index) {
        return;
    }
    clear_index((2 * (links.len() / 2)) as u16, index);
    fill_index(links, index);
}

// The first half-link of switch v that leads to a switch that passes.
pub fn half_link_to<P: Fn(u16) -> bool>(
    links: &[u16],
    index: &[u16],
    v: u16,
    passes: P,
) -> Option<usize>
    requires indexed { IndexedFrom (table_of links.now) 0 index.now × (v < 1024) }
    requires callable { P.IsAlwaysCallable passes }
    ensures { (q : ℕ → Bool) → ((x : ℕ) (b : Bool) → P.post passes x b → b ≡ q x) → FirstLeading (table_of links.now) v q result }
{
    let end = 2 * (links.len() / 2);
    let mut h = index[v as usize] as usize;
    // The turns follow a chain of the index, so no count names them.
    while h < end {
        if passes(far_end(links, h)) {
            return Some(h);
        }
        h = index[2048 + h] as usize;
    }
    None
}

// The lowest link that joins a and b, along the half-links of a.
fn link_along(links: &[u16], index: &[u16], a: u16, b: u16) -> Option<usize>
    requires { IndexedFrom (table_of links.now) 0 index.now × (a < 1024) }
    ensures lowest { unwrap_or result (size (table_of links.now)) ≡ link_of (table_of links.now) a b }
    ensures within { IfSome result (λ i. i < size (table_of links.now)) }
{
    half_link_to(links, index, a, |x| x == b).map(|h| h / 2)
}

// The lowest link that joins a and b: along the half-links of the one that has fewer, or by a scan.
pub fn link_by(links: &[u16], index: &[u16], a: u16, b: u16) -> Option<usize>
    requires { Indexed (table_of links.now) index.now }
    ensures lowest { unwrap_or result (size (table_of links.now)) ≡ link_of (table_of links.now) a b }
    ensures within { IfSome result (λ i. i < size (table_of links.now)) }
{
    if !is_index(index) || 1024 <= a || 1024 <= b {
        return link_of(links, a, b);
    }
    if index[1024 + a as usize] < index[1024 + b as usize] {
        return link_along(links, index, a, b);
    }
    link_along(links, index, b, a)
}

// Check 2: the first link that names a number of n or more.
fn first_link_too_large(n: u16, links: &[u16]) -> Option<usize>
    ensures lowest { unwrap_or result (size (table_of links.now)) ≡ low (link_too_large (network_of n links.now 0 0 0)) (size (table_of links.now)) }
    ensures within { IfSome result (λ i. i < size (table_of links.now)) }
{
    (0..links.len() / 2).find(|&i| n <= links[2 * i] || n <= links[2 * i + 1])
}

// Check 3: the first link that joins a switch to itself.
fn first_self_link(links: &[u16]) -> Option<usize>
    ensures lowest { unwrap_or result (size (table_of links.now)) ≡ low (self_link (table_of links.now)) (size (table_of links.now)) }
    ensures within { IfSome result (λ i. i < size (table_of links.now)) }
{
    (0..links.len() / 2).find(|&i| links[2 * i] == links[2 * i + 1])
}

// Link i repeats an earlier one: the lowest link between its ends stands before it.
fn repeats_earlier(links: &[u16], index: &[u16], i: usize) -> bool
    requires { (2 * i + 1 < length links.now) × Indexed (table_of links.now) index.now }
    ensures { result ≡ repeated_link (table_of links.now) i }
{
    link_by(links, index, links[2 * i], links[2 * i + 1]).is_some_and(|l| l < i)
}

// Check 4: the first link that repeats an earlier one, in either writing.
fn first_repeated_link(links: &[u16], index: &[u16]) -> Option<usize>
    requires { Indexed (table_of links.now) index.now }
    ensures lowest { unwrap_or result (size (table_of links.now)) ≡ low (repeated_link (table_of links.now)) (size (table_of links.now)) }
    ensures within { IfSome result (λ i. i < size (table_of links.now)) }
{
    (0..links.len() / 2).find(|&i| repeats_earlier(links, index, i))
}

// Check 5: root, first, last are not three different numbers below n.
#[tactic(auto, unfolding(mondschein::specs::Judge::wrong_names))]
fn wrong_names(n: u16, root: u16, first: u16, last: u16) -> bool
    ensures { result ≡ wrong_names (network_of n [] root first last) 0 }
{
    n <= root || n <= first || n <= last || root == first || root == last || first == last
}

// Some link joins a and b.
pub fn joined(links: &[u16], index: &[u16], a: u16, b: u16) -> bool
    requires { Indexed (table_of links.now) index.now }
    ensures { result ≡ joined (table_of links.now) a b }
{
    link_by(links, index, a, b).is_some()
}

// Checks 5 and 6, in number order.
fn check_names(
    n: u16,
    links: &[u16],
    index: &[u16],
    root: u16,
    first: u16,
    last: u16,
) -> Result<Loaded, Refusal>
    requires { (length links.now ≤ 8193) × Indexed (table_of links.now) index.now }
    ensures { load_answer result ≡ loading_by name_order (network_of n links.now root first last) }
{
    if wrong_names(n, root, first, last) {
        return Err(Refusal::WrongNames);
    }
    if !joined(links, index, root, first) || !joined(links, index, root, last) {
        return Err(Refusal::MissingLink);
    }
    Ok(Loaded {
        switches: n,
        links: (links.len() / 2) as u16,
    })
}

// Checks 2 to 6, in number order: the first refusal, or N and M. At most 4,096 links, so that each place fits.
pub fn check_table(
    n: u16,
    links: &[u16],
    index: &[u16],
    root: u16,
    first: u16,
    last: u16,
) -> Result<Loaded, Refusal>
    requires { (length links.now ≤ 8193) × Indexed (table_of links.now) index.now }
    ensures { load_answer result ≡ loading_by table_order (network_of n links.now root first last) }
{
    if let Some(large) = first_link_too_large(n, links) {
        return Err(Refusal::LinkTooLarge(large as u16));
    }
    if let Some(own) = first_self_link(links) {
        return Err(Refusal::SelfLink(own as u16));
    }
    if let Some(repeated) = first_repeated_link(links, index) {
        return Err(Refusal::RepeatedLink(repeated as u16));
    }
    check_names(n, links, index, root, first, last)
}
