// The calls that read a session, parent, walk and zones, over the memory of struct threeways_session (include/threeways.h), lent part by part.
// Each is the call in place, for any contents of that memory; arrays of other lengths than the struct's are refused with 255.
#![tactic(auto)]

ghost use Rattle.memory.specs.Memory.{numbers_by, memory_by};
ghost use Rattle.memory.specs.Calls.{Tells, WritesWalk, WritesZones};

use memory::{LINKS, MARKS, ROW, Refusal};

// Writes the entry of a switch in the table of a tree, 1 to 3: 19 on an empty session, 21 on an open one, then check 17.
pub fn parent(
    stage: u16,
    n: u16,
    m: u16,
    root: u16,
    first: u16,
    last: u16,
    longs: u16,
    born: u16,
    tree1: &[u16],
    tree2: &[u16],
    tree3: &[u16],
    switch: u16,
    tree: u16,
    out: &mut u16,
) -> Refusal
    ensures { Tells
        (λ links ducts used births order. memory_by (numbers_by stage n m root first last longs born)
        links ducts used births order tree1.now tree2.now tree3.now)
        switch tree out.old result out.new }
{
    if memory::wrong_lengths(
        LINKS,
        MARKS,
        MARKS,
        ROW,
        ROW,
        tree1.len(),
        tree2.len(),
        tree3.len(),
    ) {
        return memory::WRONG_LENGTHS;
    }
    let st = memory::state_of(stage, n, m, root, first, last, longs, born);
    let answer = in_place::parent_in(st, tree1, tree2, tree3, switch, tree);
    match answer {
        Err(refusal) => Refusal::from(refusal),
        Ok(parent) => {
            *out = parent;
            memory::DONE
        }
    }
}

// Writes the walk of a switch in a tree, 1 to 3, at the start of the slice, and its count of switches: 19 on an empty session, 21 on an
// open one, then checks 17 and 18.
pub fn walk(
    stage: u16,
    n: u16,
    m: u16,
    root: u16,
    first: u16,
    last: u16,
    longs: u16,
    born: u16,
    tree1: &[u16],
    tree2: &[u16],
    tree3: &[u16],
    switch: u16,
    tree: u16,
    out: &mut [u16],
    count: &mut u16,
) -> Refusal
    ensures { WritesWalk
        (λ links ducts used births order. memory_by (numbers_by stage n m root first last longs born)
        links ducts used births order tree1.now tree2.now tree3.now)
        switch tree out.old count.old result out.new count.new }
{
    if memory::wrong_lengths(
        LINKS,
        MARKS,
        MARKS,
        ROW,
        ROW,
        tree1.len(),
        tree2.len(),
        tree3.len(),
    ) {
        return memory::WRONG_LENGTHS;
    }
    let st = memory::state_of(stage, n, m, root, first, last, longs, born);
    let answer = in_place::walk_in(st, tree1, tree2, tree3, switch, tree, out);
    match answer {
        Err(refusal) => Refusal::from(refusal),
        Ok(switches) => {
            *count = switches;
            memory::DONE
        }
    }
}

// Writes the zone of each switch into the first N places of the slice, zones 1, 2 and 3 of the sizes wanted: 19 on an empty session, 21 on an
// open one, then checks 24 and 18.
pub fn zones(
    stage: u16,
    n: u16,
    m: u16,
    root: u16,
    first: u16,
    last: u16,
    longs: u16,
    born: u16,
    births: &[u16],
    order: &[u16],
    size1: u16,
    size2: u16,
    size3: u16,
    out: &mut [u16],
) -> Refusal
    ensures { WritesZones
        (λ links ducts used tree1 tree2 tree3. memory_by (numbers_by stage n m root first last longs born)
        links ducts used births.now order.now tree1 tree2 tree3)
        size1 size2 size3 out.old result out.new }
{
    if memory::wrong_lengths(
        LINKS,
        MARKS,
        MARKS,
        births.len(),
        order.len(),
        ROW,
        ROW,
        ROW,
    ) {
        return memory::WRONG_LENGTHS;
    }
    let st = memory::state_of(stage, n, m, root, first, last, longs, born);
    let answer = zoning::zones_in(st, births, order, size1, size2, size3, out);
    match answer {
        Err(refusal) => Refusal::from(refusal),
        Ok(()) => memory::DONE,
    }
}
