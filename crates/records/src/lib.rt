// Link records, lent as a slice: document 02, Note 7. They are copied into a flat table, two numbers a link, and a row of ducts beside it.
// A slice of records is read here alone; the routines take the flat table and the ducts.
#![tactic(auto)]

ghost use Rattle.std.specs.Prelude.{◌≡◌, ◌+◌, ◌*◌, set};
ghost use Rattle.records.specs.Records.{flat_with, flat_of, numbers_of};

use network::MAX_LINKS;

// A link record: the two switches that a link joins, and its duct, 0 for none.
#[repr(C)]
#[derive(Clone, Copy)]
pub struct Link {
    pub a: u16,
    pub b: u16,
    pub duct: u8,
}

// A link table: two numbers a link, and beside them the duct of each. What is past the last link is 0.
#[derive(Clone, Copy)]
pub struct Flat {
    pub ends: [u16; 2 * (MAX_LINKS as usize)],
    pub ducts: [u8; MAX_LINKS as usize],
}

// Stores the two ends of link i, and nothing past the end. The test keeps 2 i within a usize.
fn put_ends(ends: &mut [u16], i: usize, a: u16, b: u16)
    ensures { ends.new ≡ set (set ends.old (2 * i) a) (2 * i + 1) b }
{
    if i < ends.len() {
        rows::store_at(ends, 2 * i, a);
        rows::store_at(ends, 2 * i + 1, b);
    }
}

// Stores the ends of link i and its duct, and nothing past the end of a row.
fn put(ends: &mut [u16], ducts: &mut [u8], i: usize, link: Link)
    ensures { (ends.new ≡ set (set ends.old (2 * i) link.a) (2 * i + 1) link.b) × (ducts.new ≡ set ducts.old i link.duct) }
{
    put_ends(ends, i, link.a, link.b);
    rows::store_at(ducts, i, link.duct);
}

// The flat table of the records, in their order. What does not fit is left out.
#[tactic(auto, using(crate::proofs::Records::stored), unfolding(crate::specs::Records::flat_of))]
pub fn flatten(links: &[Link]) -> Flat
    ensures { result ≡ flat_of links.now }
{
    let mut ends = [0u16; 2 * (MAX_LINKS as usize)];
    let mut ducts = [0u8; MAX_LINKS as usize];
    for (i, link) in links.iter().enumerate() {
        put(&mut ends, &mut ducts, i, *link);
    }
    Flat { ends, ducts }
}

// How many numbers the first m links of a flat table are; none where there is no room for so many.
#[tactic(auto, unfolding(crate::specs::Records::numbers_of))]
pub fn numbers_of(m: usize) -> usize
    ensures { result ≡ numbers_of m }
{
    if m <= MAX_LINKS as usize { 2 * m } else { 0 }
}
