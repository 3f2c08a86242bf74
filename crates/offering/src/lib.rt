// An ear, and a list of ears, offered to a session in place by a caller that brings no index of the links: one is made where it pays, and
// for a list once. Each ear of a list is judged by the call that a single ear uses.
#![tactic(auto)]

ghost use Rattle.std.specs.Prelude.{◌≡◌, [], length, MatchOption};
ghost use Rattle.in_place.specs.InPlace.{IndexedIn, OffersIn};
ghost use Rattle.offering.specs.Offering.{FirstEar, ListsIn};

use in_place::{Stage, State};
use refusals::Refusal;

// An index is made where the count of numbers offered times the numbers of the table is more than this.
const INDEX_PAYS: usize = 32768;

// How a list of ears ends that is not accepted whole: how many ears were accepted, and the refusal of the next.
#[derive(Clone, Copy, Debug, PartialEq, Eq)]
pub struct ListRefusal {
    pub accepted: usize,
    pub refusal: Refusal,
}

// Whether an index pays for so many numbers: on an open session, where they and the table are long.
fn index_pays(st: State, count: usize) -> bool {
    st.stage == Stage::Open && count > INDEX_PAYS / (2 * (st.m as usize) + 1)
}

// Makes the index of the links that are stored.
fn index_links(st: State, links: &[u16], index: &mut [u16])
    requires { length links.now ≡ 8192 }
    ensures { IndexedIn st links.now index.new }
{
    network::make_index(in_place::stored(st.m, links), index);
}

// `ear` and `ears` have the two branches each: an index takes 20 KB of the stack and its making, so there is none where it does not pay.

// Offers an ear: 19 on an empty session, 22 on a closed one, then checks 7 to 16.
pub fn ear(
    st: &mut State,
    links: &[u16],
    used: &mut [u8],
    births: &mut [u16],
    order: &mut [u16],
    tree1: &mut [u16],
    tree2: &mut [u16],
    switches: &[u16],
) -> Result<u16, Refusal>
    requires { (length links.now ≡ 8192) × (length order.old ≡ 1024) }
    ensures { OffersIn st.old links.now used.old births.old order.old tree1.old tree2.old switches.now result st.new used.new births.new order.new tree1.new tree2.new }
{
    if index_pays(*st, switches.len()) {
        let mut index = [0u16; network::INDEX_LENGTH];
        index_links(*st, links, &mut index);
        return in_place::ear_in(
            st, links, &index, used, births, order, tree1, tree2, switches,
        );
    }
    in_place::ear_in(st, links, &[], used, births, order, tree1, tree2, switches)
}

// The first ear of a list, and what follows it: its numbers stand after their count, and a count past the end is taken as it stands, one number alone.
fn first_ear(list: &[u16]) -> Option<(&[u16], &[u16])>
    ensures { MatchOption result (list.now ≡ []) (λ p. FirstEar list.now p.0.now p.1.now) }
{
    let (count, rest) = list.split_first()?;
    let count = *count as usize;
    if count <= rest.len() {
        return Some(rest.split_at(count));
    }
    Some((&list[..1], &[]))
}

// Offers the ears of a list one after another, up to the first refusal.
fn offer_each(
    st: &mut State,
    links: &[u16],
    index: &[u16],
    used: &mut [u8],
    births: &mut [u16],
    order: &mut [u16],
    tree1: &mut [u16],
    tree2: &mut [u16],
    list: &[u16],
) -> Result<usize, ListRefusal>
    requires { (length order.old ≡ 1024) × IndexedIn st.old links.now index.now }
    ensures { ListsIn st.old links.now used.old births.old order.old tree1.old tree2.old list.now result st.new used.new births.new order.new tree1.new tree2.new }
{
    let mut accepted = 0;
    let mut rest = list;
    while let Some((switches, others)) = first_ear(rest) {
        let answer = in_place::ear_in(
            st, links, index, used, births, order, tree1, tree2, switches,
        );
        if let Err(refusal) = answer {
            return Err(ListRefusal { accepted, refusal });
        }
        accepted += 1;
        rest = others;
    }
    Ok(accepted)
}

// The same, by an index of the links that is made for the whole list. Its room is cleared at the entry of the function that has it, so that a
// list that needs none does not pay for it.
fn offer_by_index(
    st: &mut State,
    links: &[u16],
    used: &mut [u8],
    births: &mut [u16],
    order: &mut [u16],
    tree1: &mut [u16],
    tree2: &mut [u16],
    list: &[u16],
) -> Result<usize, ListRefusal>
    requires { (length links.now ≡ 8192) × (length order.old ≡ 1024) }
    ensures { ListsIn st.old links.now used.old births.old order.old tree1.old tree2.old list.now result st.new used.new births.new order.new tree1.new tree2.new }
{
    let mut index = [0u16; network::INDEX_LENGTH];
    index_links(*st, links, &mut index);
    offer_each(st, links, &index, used, births, order, tree1, tree2, list)
}

// Offers a list of ears, each preceded by its count of numbers: one after another, up to the first refusal. A list of no ears makes no
// offer, at any stage.
pub fn ears(
    st: &mut State,
    links: &[u16],
    used: &mut [u8],
    births: &mut [u16],
    order: &mut [u16],
    tree1: &mut [u16],
    tree2: &mut [u16],
    list: &[u16],
) -> Result<usize, ListRefusal>
    requires { (length links.now ≡ 8192) × (length order.old ≡ 1024) }
    ensures { ListsIn st.old links.now used.old births.old order.old tree1.old tree2.old list.now result st.new used.new births.new order.new tree1.new tree2.new }
{
    if index_pays(*st, list.len()) {
        return offer_by_index(st, links, used, births, order, tree1, tree2, list);
    }
    offer_each(st, links, &[], used, births, order, tree1, tree2, list)
}
