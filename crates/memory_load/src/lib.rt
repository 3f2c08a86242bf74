// Load, from a flat table of link records, and clear over the memory of struct threeways_session (include/threeways.h).
// Each is the call in place, for any contents of that memory; arrays of other lengths than the struct's are refused with 255.
#![tactic(auto)]

ghost use Rattle.std.specs.Prelude.{take};
ghost use Rattle.network.specs.Load.{network_of};
ghost use Rattle.records.specs.Records.{numbers_of};
ghost use Rattle.memory.specs.Memory.{numbers_by, memory_by};
ghost use Rattle.memory.specs.Calls.{Clears, Loads};

use memory::Refusal;
use records::Flat;

// Loads the first `count` links of a flat table, with their ducts, into an empty session; where the table has no room for so many, none: 255
// for arrays of other lengths than the struct's, 20 on any other session, then checks 1 to 6.
pub fn load_flat(
    flat: Flat,
    count: usize,
    stage: &mut u16,
    n: &mut u16,
    m: &mut u16,
    root: &mut u16,
    first: &mut u16,
    last: &mut u16,
    longs: &mut u16,
    born: &mut u16,
    links: &mut [u16],
    ducts: &mut [u8],
    used: &mut [u8],
    births: &mut [u16],
    order: &mut [u16],
    tree1: &mut [u16],
    tree2: &mut [u16],
    tree3: &mut [u16],
    new_n: u16,
    new_root: u16,
    new_first: u16,
    new_last: u16,
) -> Refusal
    ensures { Loads
        (memory_by
        (numbers_by stage.old n.old m.old root.old
        first.old last.old longs.old born.old)
        links.old ducts.old used.old births.old order.old
        tree1.old tree2.old tree3.old)
        (network_of new_n (take (numbers_of count) flat.ends) new_root new_first new_last) flat.ducts result
        (memory_by
        (numbers_by stage.new n.new m.new root.new
        first.new last.new longs.new born.new)
        links.new ducts.new used.new births.new order.new
        tree1.new tree2.new tree3.new) }
{
    if memory::wrong_lengths(
        links.len(),
        ducts.len(),
        used.len(),
        births.len(),
        order.len(),
        tree1.len(),
        tree2.len(),
        tree3.len(),
    ) {
        return memory::WRONG_LENGTHS;
    }
    let mut st = memory::state_of(*stage, *n, *m, *root, *first, *last, *longs, *born);
    let ends = rows::prefix(&flat.ends, records::numbers_of(count));
    let loaded = loading::load(
        &mut st,
        new_n,
        ends,
        &flat.ducts,
        new_root,
        new_first,
        new_last,
        links,
        ducts,
        used,
        births,
        order,
        tree1,
        tree2,
        tree3,
        &mut [],
    );
    match loaded {
        Err(refusal) => Refusal::from(refusal),
        Ok(_) => {
            memory::put_state(st, stage, n, m, root, first, last, longs, born);
            memory::DONE
        }
    }
}

// Clears the session: always succeeds.
pub fn clear(
    stage: &mut u16,
    n: &mut u16,
    m: &mut u16,
    root: &mut u16,
    first: &mut u16,
    last: &mut u16,
    longs: &mut u16,
    born: &mut u16,
    links: &mut [u16],
    ducts: &mut [u8],
    used: &mut [u8],
    births: &mut [u16],
    order: &mut [u16],
    tree1: &mut [u16],
    tree2: &mut [u16],
    tree3: &mut [u16],
) -> Refusal
    ensures { Clears
        (memory_by
        (numbers_by stage.old n.old m.old root.old
        first.old last.old longs.old born.old)
        links.old ducts.old used.old births.old order.old
        tree1.old tree2.old tree3.old)
        result
        (memory_by
        (numbers_by stage.new n.new m.new root.new
        first.new last.new longs.new born.new)
        links.new ducts.new used.new births.new order.new
        tree1.new tree2.new tree3.new) }
{
    if memory::wrong_lengths(
        links.len(),
        ducts.len(),
        used.len(),
        births.len(),
        order.len(),
        tree1.len(),
        tree2.len(),
        tree3.len(),
    ) {
        return memory::WRONG_LENGTHS;
    }
    let cleared = loading::clear(
        links,
        ducts,
        used,
        births,
        order,
        tree1,
        tree2,
        tree3,
        &mut [],
    );
    memory::put_state(cleared, stage, n, m, root, first, last, longs, born);
    memory::DONE
}
