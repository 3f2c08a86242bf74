// Close and bringing over over the memory of struct threeways_session (include/threeways.h), lent part by part.
// Each is the call in place, for any contents of that memory; arrays of other lengths than the struct's are refused with 255.
#![tactic(auto)]

ghost use Rattle.memory.specs.Memory.{numbers_by, memory_by};
ghost use Rattle.memory.specs.Calls.{Closes, BringsOver};

use memory::{CLOSED, MARKS, ROW, Refusal};

// Closes an open session: 19 on an empty one, 22 on a closed one, then check 23.
pub fn close(
    stage: &mut u16,
    n: u16,
    m: u16,
    root: u16,
    first: u16,
    last: u16,
    longs: u16,
    born: u16,
    links: &[u16],
    used: &[u8],
    births: &[u16],
    tree3: &mut [u16],
) -> Refusal
    ensures { Closes
        (λ ducts order tree1 tree2. memory_by (numbers_by stage.old n m root first last longs born)
        links.now ducts used.now births.now order tree1 tree2 tree3.old)
        result
        (λ ducts order tree1 tree2. memory_by (numbers_by stage.new n m root first last longs born)
        links.now ducts used.now births.now order tree1 tree2 tree3.new) }
{
    if memory::wrong_lengths(
        links.len(),
        MARKS,
        used.len(),
        births.len(),
        ROW,
        ROW,
        ROW,
        tree3.len(),
    ) {
        return memory::WRONG_LENGTHS;
    }
    let mut st = memory::state_of(*stage, n, m, root, first, last, longs, born);
    let closed = in_place::close_in(&mut st, links, used, births, tree3);
    match closed {
        Err(refusal) => Refusal::from(refusal),
        Ok(()) => {
            *stage = CLOSED;
            memory::DONE
        }
    }
}

// Brings a closed session over: tree 3 as close sets it today. 19 on an empty session, 21 on an open one.
pub fn bring_over(
    stage: u16,
    n: u16,
    m: u16,
    root: u16,
    first: u16,
    last: u16,
    longs: u16,
    born: u16,
    links: &[u16],
    births: &[u16],
    tree3: &mut [u16],
) -> Refusal
    ensures { BringsOver
        (λ ducts used order tree1 tree2. memory_by (numbers_by stage n m root first last longs born)
        links.now ducts used births.now order tree1 tree2 tree3.old)
        result
        (λ ducts used order tree1 tree2. memory_by (numbers_by stage n m root first last longs born)
        links.now ducts used births.now order tree1 tree2 tree3.new) }
{
    if memory::wrong_lengths(
        links.len(),
        MARKS,
        MARKS,
        births.len(),
        ROW,
        ROW,
        ROW,
        tree3.len(),
    ) {
        return memory::WRONG_LENGTHS;
    }
    let st = memory::state_of(stage, n, m, root, first, last, longs, born);
    let answer = bringing::bring_over(st, links, births, tree3);
    match answer {
        Err(refusal) => Refusal::from(refusal),
        Ok(()) => memory::DONE,
    }
}
