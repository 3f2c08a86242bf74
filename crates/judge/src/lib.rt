// One ear against lent tables: its shape, then the first offending index of each check from 12.
// Births and used links are lent as marks, 0 for unborn and unused.
#![tactic(auto)]

ghost use Rattle.std.specs.Prelude.{◌≡◌, false, not, ◌&&◌, ◌||◌, ◌/◌, ◌≤◌, ◌<◌, ltb, length, unwrap_or, IfSome};
ghost use Rattle.mondschein.specs.Network.{low, at, is_new};
ghost use Rattle.mondschein.specs.Judge.{last_misplaced, other_unborn, root_end, verdict};
ghost use Rattle.mondschein.specs.Order.{position};
ghost use Rattle.network.specs.Index.{Indexed};
ghost use Rattle.network.specs.Load.{network_of, table_of};
ghost use Rattle.rows.specs.Rows.{marked};
ghost use Rattle.shape.specs.Shape.{ear_answer};
ghost use Rattle.judge.specs.Ear.{FirstAnswer, LaterAnswer, ShortLink};

use refusals::Refusal;

// The index of the first x in the list.
fn first_place(list: &[u16], x: u16) -> Option<usize>
    ensures lowest { unwrap_or result (length list.now) ≡ position list.now x }
    ensures within { IfSome result (λ k. k < length list.now) }
{
    list.iter().position(|y| *y == x)
}

// 13: the index of the first end that is unborn.
fn first_unborn_end(births: &[u16], ear: &[u16]) -> Option<usize>
    requires { 2 ≤ length ear.now }
    ensures lowest { unwrap_or result (length ear.now) ≡ low (λ k. not (is_new false (length ear.now) k) && not (marked births.now (at ear.now k))) (length ear.now) }
    ensures within { IfSome result (λ k. k < length ear.now) }
{
    let end = ear.len() - 1;
    if rows::entry(births, ear[0]) == 0 {
        Some(0)
    } else if rows::entry(births, ear[end]) == 0 {
        Some(end)
    } else {
        None
    }
}

// 15 of a later ear: another of its switches is new, or another is still unborn after it, or an end is root.
#[tactic(auto, using(crate::proofs::Place::final_number), unfolding(mondschein::specs::Judge::other_unborn, mondschein::specs::Judge::root_end))]
fn is_early(n: u16, root: u16, last: u16, births: &[u16], ear: &[u16]) -> bool
    requires { 2 ≤ length ear.now }
    ensures { result ≡ (ltb 3 (length ear.now) || (other_unborn n last (marked births.now) ear.now || root_end root ear.now)) }
{
    let len = ear.len();
    3 < len || unborn::other_unborn(n, last, births, ear) || ear[0] == root || ear[len - 1] == root
}

// 15 of a later ear: the index of last between the ends where it comes too early.
fn last_too_early(n: u16, root: u16, last: u16, births: &[u16], ear: &[u16]) -> Option<usize>
    requires { 2 ≤ length ear.now }
    ensures lowest { unwrap_or result (length ear.now) ≡ low (last_misplaced n root last (marked births.now) false ear.now) (length ear.now) }
    ensures within { IfSome result (λ k. k < length ear.now) }
{
    let place = first_place(&ear[1..ear.len() - 1], last)?;
    is_early(n, root, last, births, ear).then_some(place + 1)
}

// Checks 12, 15 and 16 of a first ear whose shape is right; 13 is not asked of it.
fn check_first(
    n: u16,
    links: &[u16],
    index: &[u16],
    root: u16,
    first: u16,
    last: u16,
    births: &[u16],
    ear: &[u16],
) -> Result<u16, Refusal>
    requires { (3 ≤ length ear.now) × (length ear.now ≤ n) × Indexed (table_of links.now) index.now }
    ensures { FirstAnswer n links.now root first last births.now ear.now (ear_answer result) }
{
    if ear[0] != root || ear[ear.len() - 1] != first {
        return Err(Refusal::WrongCycle);
    }
    if let Some(place) = first_place(ear, last) {
        return Err(Refusal::LastMisplaced(place as u16));
    }
    if let Some(cut) = unborn::first_cut_off(n, last, links, index, births, ear, ear) {
        return Err(Refusal::NoneUnborn(cut as u16));
    }
    Ok(ear.len() as u16)
}

// Checks 13, 15 and 16 of a later ear whose shape is right; 12 is not asked of it.
fn check_later(
    n: u16,
    links: &[u16],
    index: &[u16],
    root: u16,
    last: u16,
    births: &[u16],
    ear: &[u16],
) -> Result<u16, Refusal>
    requires { (2 ≤ length ear.now) × (length ear.now ≤ n) × Indexed (table_of links.now) index.now }
    ensures { LaterAnswer n links.now root last births.now ear.now (ear_answer result) }
{
    if let Some(end) = first_unborn_end(births, ear) {
        return Err(Refusal::UnbornEnd(end as u16));
    }
    if let Some(early) = last_too_early(n, root, last, births, ear) {
        return Err(Refusal::LastMisplaced(early as u16));
    }
    let part = &ear[1..ear.len() - 1];
    if let Some(cut) = unborn::first_cut_off(n, last, links, index, births, ear, part) {
        return Err(Refusal::NoneUnborn((cut + 1) as u16));
    }
    Ok(part.len() as u16)
}

// The link of a later ear of two numbers that passes checks 7 to 16, by one search; none for any other ear.
pub fn short_link(
    n: u16,
    links: &[u16],
    index: &[u16],
    births: &[u16],
    used: &[u8],
    initial: bool,
    ear: &[u16],
) -> Option<usize>
    requires { Indexed (table_of links.now) index.now }
    ensures short { ShortLink n links.now births.now used.now initial ear.now (unwrap_or result (length links.now / 2)) }
    ensures within { IfSome result (λ l. l < length links.now / 2) }
{
    if initial || ear.len() != 2 {
        return None;
    }
    let a = ear[0];
    let b = ear[1];
    if n <= a || n <= b || a == b {
        return None;
    }
    if rows::entry(births, a) == 0 || rows::entry(births, b) == 0 {
        return None;
    }
    network::link_by(links, index, a, b).filter(|l| rows::mark_at(used, *l) == 0)
}

// The ear judged by checks 7 to 16, in their order: the first refusal, or the number of new switches.
pub fn judge(
    n: u16,
    links: &[u16],
    index: &[u16],
    root: u16,
    first: u16,
    last: u16,
    births: &[u16],
    used: &[u8],
    initial: bool,
    ear: &[u16],
) -> Result<u16, Refusal>
    requires { Indexed (table_of links.now) index.now }
    ensures { ear_answer result ≡ verdict (network_of n links.now root first last) (marked births.now) (marked used.now) initial ear.now }
{
    shape::check_shape(n, links, index, births, used, initial, ear)?;
    if initial {
        return check_first(n, links, index, root, first, last, births, ear);
    }
    check_later(n, links, index, root, last, births, ear)
}
