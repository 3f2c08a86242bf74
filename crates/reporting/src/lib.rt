// The sums of the report of document 02, Note 7, on lent slices: for each duct, how many switches other than the root lose exactly two walks,
// and how many all three, when all its links fail. The work is N times the lengths of the walks, and N times the highest duct.
#![tactic(auto)]

ghost use Rattle.std.specs.Prelude.{◌≡◌, cond, ◌+◌, set, replicate};
ghost use Rattle.mondschein.specs.Network.{at};
ghost use Rattle.reporting.specs.Reporting.{duct_row, NoneAbove, duct_told, more, marks_after, marks_at, trees, trees_of, RaisesBoth, AddsSwitch, AddsSwitches, AddsLosses};

// A link between a and b: where the row leads from a to b, its duct is that of the entry.
fn tell_duct(row: &[u16], a: u16, b: u16, duct: u8, ducts: &mut [u8])
    ensures { ducts.new ≡ duct_told row.now a b duct ducts.old }
{
    if rows::entry(row, a) == b {
        rows::store_at(ducts, a as usize, duct);
    }
}

// The ducts of a tree's links, from the last link of the table to the first, so that the lowest that joins two switches stays.
fn ducts_along(links: &[u16], ducts: &[u8], row: &[u16]) -> [u8; 1024]
    ensures { result ≡ duct_row links.now ducts.now row.now }
{
    let mut found = [0u8; 1024];
    for i in (0..links.len() / 2).rev() {
        let a = links[2 * i];
        let b = links[2 * i + 1];
        let duct = rows::mark_at(ducts, i);
        tell_duct(row, a, b, duct, &mut found);
        tell_duct(row, b, a, duct, &mut found);
    }
    found
}

// No link lies in a duct above this one.
fn highest(ducts: &[u8]) -> u8
    ensures { NoneAbove result ducts.now }
{
    ducts.iter().copied().max().unwrap_or(0)
}

// The duct of the link from switch v to its entry, and 0 past the end.
fn duct_of(ducts: &[u8], v: u16) -> u8
    ensures { result ≡ at ducts.now v }
{
    rows::mark_at(ducts, v as usize)
}

// Marks the ducts along the walk of v, cut after so many links.
#[tactic(auto, using(crate::proofs::Steps::walk_marks))]
fn mark_walk(row: &[u16], ducts: &[u8], root: u16, v: u16, limit: u16, marks: &mut [u8])
    ensures { marks.new ≡ marks_after root (at row.now) (at ducts.now) limit v marks.old }
{
    let mut x = v;
    for _ in 0..limit {
        if x == root {
            return;
        }
        rows::mark(marks, duct_of(ducts, x) as usize);
        x = rows::entry(row, x);
    }
}

// The ducts along the walk of v.
fn marks_of(row: &[u16], ducts: &[u8], root: u16, v: u16, limit: u16) -> [u8; 256]
    ensures { result ≡ marks_after root (at row.now) (at ducts.now) limit v (replicate 256 0) }
{
    let mut marks = [0u8; 256];
    mark_walk(row, ducts, root, v, limit, &mut marks);
    marks
}

// One more, up to the largest number.
#[tactic(auto, unfolding(crate::specs::Reporting::more))]
fn more(x: u32) -> u32
    ensures { result ≡ more x }
{
    x.saturating_add(1)
}

// One more at duct d, where it is hit.
fn raise(sums: &mut [u32], d: usize, hit: bool)
    ensures { sums.new ≡ cond hit (set sums.old d (more (at sums.old d))) sums.old }
{
    if hit && d < sums.len() {
        sums[d] = more(sums[d]);
    }
}

// Along how many of three walks duct d is marked.
fn marks_at(marks1: &[u8], marks2: &[u8], marks3: &[u8], d: usize) -> usize
    ensures { result ≡ marks_at marks1.now marks2.now marks3.now d }
{
    (rows::mark_at(marks1, d) as usize)
        + (rows::mark_at(marks2, d) as usize)
        + (rows::mark_at(marks3, d) as usize)
}

// One more at each duct from 1 to the top that is marked along exactly two of three walks, and along all three.
fn add_losing(
    marks1: &[u8],
    marks2: &[u8],
    marks3: &[u8],
    top: u8,
    two: &mut [u32],
    three: &mut [u32],
)
    ensures { RaisesBoth marks1.now marks2.now marks3.now top two.old three.old two.new three.new }
{
    for d in 1..top as usize + 1 {
        let lost = marks_at(marks1, marks2, marks3, d);
        raise(two, d, lost == 2);
        raise(three, d, lost == 3);
    }
}

// The three trees stand side by side here, as the public call lends them: an array of three would be built only to be taken apart.
// Switch v, with its three walks: one more at each duct that costs two of them, or all three.
fn add_switch(
    row1: &[u16],
    row2: &[u16],
    row3: &[u16],
    ducts1: &[u8],
    ducts2: &[u8],
    ducts3: &[u8],
    n: u16,
    root: u16,
    top: u8,
    v: u16,
    two: &mut [u32],
    three: &mut [u32],
)
    ensures { AddsSwitch (trees n root row1.now row2.now row3.now ducts1.now ducts2.now ducts3.now) top v two.old three.old two.new three.new }
{
    if v == root {
        return;
    }
    let limit = walks::most_links(n);
    let marks1 = marks_of(row1, ducts1, root, v, limit);
    let marks2 = marks_of(row2, ducts2, root, v, limit);
    let marks3 = marks_of(row3, ducts3, root, v, limit);
    add_losing(&marks1, &marks2, &marks3, top, two, three);
}

// The switches 0 to n - 1, one after another.
fn add_switches(
    row1: &[u16],
    row2: &[u16],
    row3: &[u16],
    ducts1: &[u8],
    ducts2: &[u8],
    ducts3: &[u8],
    n: u16,
    root: u16,
    top: u8,
    two: &mut [u32],
    three: &mut [u32],
)
    ensures { AddsSwitches (trees n root row1.now row2.now row3.now ducts1.now ducts2.now ducts3.now) top n two.old three.old two.new three.new }
{
    for v in 0..n {
        add_switch(
            row1, row2, row3, ducts1, ducts2, ducts3, n, root, top, v, two, three,
        );
    }
}

// Adds what the ducts of a table cost the switches of three trees. Where no link has a duct there is nothing to add.
pub fn add_losses(
    n: u16,
    root: u16,
    links: &[u16],
    ducts: &[u8],
    row1: &[u16],
    row2: &[u16],
    row3: &[u16],
    two: &mut [u32],
    three: &mut [u32],
)
    ensures { AddsLosses (trees_of n root links.now ducts.now row1.now row2.now row3.now) two.old three.old two.new three.new }
{
    let top = highest(ducts);
    if top == 0 {
        return;
    }
    let ducts1 = ducts_along(links, ducts, row1);
    let ducts2 = ducts_along(links, ducts, row2);
    let ducts3 = ducts_along(links, ducts, row3);
    add_switches(
        row1, row2, row3, &ducts1, &ducts2, &ducts3, n, root, top, two, three,
    );
}
