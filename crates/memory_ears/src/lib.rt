// Ears and lists of ears over the memory of struct threeways_session (include/threeways.h), lent part by part.
// Each is the call in place, for any contents of that memory; arrays of other lengths than the struct's are refused with 255.
#![tactic(auto)]

ghost use Rattle.memory.specs.Memory.{numbers_by, memory_by};
ghost use Rattle.memory.specs.Calls.{Offers, Lists};

use memory::{MARKS, ROW, Refusal};

// Offers an ear to an open session: 19 on an empty one, 22 on a closed one, then checks 7 to 16. Writes the number of new switches.
pub fn ear(
    stage: u16,
    n: u16,
    m: u16,
    root: u16,
    first: u16,
    last: u16,
    longs: &mut u16,
    born: &mut u16,
    links: &[u16],
    used: &mut [u8],
    births: &mut [u16],
    order: &mut [u16],
    tree1: &mut [u16],
    tree2: &mut [u16],
    ear: &[u16],
    count: &mut u16,
) -> Refusal
    ensures { Offers
        (λ ducts tree3. memory_by (numbers_by stage n m root first last longs.old born.old)
        links.now ducts used.old births.old order.old tree1.old tree2.old tree3)
        ear.now count.old result
        (λ ducts tree3. memory_by (numbers_by stage n m root first last longs.new born.new)
        links.now ducts used.new births.new order.new tree1.new tree2.new tree3)
        count.new }
{
    if memory::wrong_lengths(
        links.len(),
        MARKS,
        used.len(),
        births.len(),
        order.len(),
        tree1.len(),
        tree2.len(),
        ROW,
    ) {
        return memory::WRONG_LENGTHS;
    }
    let mut st = memory::state_of(stage, n, m, root, first, last, *longs, *born);
    let offered = offering::ear(&mut st, links, used, births, order, tree1, tree2, ear);
    match offered {
        Err(refusal) => Refusal::from(refusal),
        Ok(new) => {
            *longs = st.longs;
            *born = st.born;
            *count = new;
            memory::DONE
        }
    }
}

// Offers a list of ears, each preceded by its count of numbers: one after another, up to the first refusal, which it gives back. Writes the
// count of ears accepted; they stay.
pub fn ears(
    stage: u16,
    n: u16,
    m: u16,
    root: u16,
    first: u16,
    last: u16,
    longs: &mut u16,
    born: &mut u16,
    links: &[u16],
    used: &mut [u8],
    births: &mut [u16],
    order: &mut [u16],
    tree1: &mut [u16],
    tree2: &mut [u16],
    list: &[u16],
    accepted: &mut usize,
) -> Refusal
    ensures { Lists
        (λ ducts tree3. memory_by (numbers_by stage n m root first last longs.old born.old)
        links.now ducts used.old births.old order.old tree1.old tree2.old tree3)
        list.now accepted.old result
        (λ ducts tree3. memory_by (numbers_by stage n m root first last longs.new born.new)
        links.now ducts used.new births.new order.new tree1.new tree2.new tree3)
        accepted.new }
{
    if memory::wrong_lengths(
        links.len(),
        MARKS,
        used.len(),
        births.len(),
        order.len(),
        tree1.len(),
        tree2.len(),
        ROW,
    ) {
        return memory::WRONG_LENGTHS;
    }
    let mut reached = memory::state_of(stage, n, m, root, first, last, *longs, *born);
    let listed = offering::ears(&mut reached, links, used, births, order, tree1, tree2, list);
    *longs = reached.longs;
    *born = reached.born;
    match listed {
        Ok(count) => {
            *accepted = count;
            memory::DONE
        }
        Err(end) => {
            *accepted = end.accepted;
            Refusal::from(end.refusal)
        }
    }
}
