// The shape of an ear against lent tables: its checks up to 11, in their order, and the marks of an ear's numbers.
// Births and used links are lent as marks, 0 for unborn and unused.
#![tactic(auto)]

ghost use Rattle.std.specs.Prelude.{◌≡◌, not, ◌||◌, cond, pred, ◌+◌, ◌≤◌, ◌<◌, eqb, leb, length, unwrap_or, IfSome};
ghost use Rattle.mondschein.specs.Network.{low, any, at, joined, link_of, new_count};
ghost use Rattle.mondschein.specs.Judge.{born_between};
ghost use Rattle.network.specs.Index.{Indexed};
ghost use Rattle.network.specs.Load.{table_of};
ghost use Rattle.rows.specs.Rows.{marked};
ghost use Rattle.shape.specs.Shape.{Unmarked, MarksOf, ear_answer, LinkAnswer, ShapeAnswer};

use refusals::Refusal;

// 8: the first number of n or more.
fn first_too_large(ear: &[u16], n: u16) -> Option<usize>
    ensures lowest { unwrap_or result (length ear.now) ≡ low (λ k. leb n (at ear.now k)) (length ear.now) }
    ensures within { IfSome result (λ k. k < length ear.now) }
{
    ear.iter().position(|x| n <= *x)
}

// Number x is among the first k of the ear: by its mark, or by a search where it has none.
pub fn among(ear: &[u16], k: usize, marks: &[u8], x: u16) -> bool
    requires { MarksOf ear.now k marks.now × (k ≤ length ear.now) }
    ensures { result ≡ any (λ j. eqb (at ear.now j) x) k }
{
    if let Some(mark) = marks.get(x as usize) {
        return 0 < *mark;
    }
    ear[..k].iter().any(|y| *y == x)
}

// Marks every number of the ear, where nothing is marked yet.
pub fn mark_all(ear: &[u16], marks: &mut [u8])
    requires { Unmarked marks.old }
    ensures { MarksOf ear.now (length ear.now) marks.new }
{
    for x in ear {
        rows::mark(marks, *x as usize);
    }
}

// The first number that stood before; those before it are marked on the way.
fn first_repeated_by(ear: &[u16], marks: &mut [u8]) -> Option<usize>
    requires { Unmarked marks.old }
    ensures lowest { unwrap_or result (length ear.now) ≡ low (λ k. any (λ j. eqb (at ear.now j) (at ear.now k)) k) (length ear.now) }
    ensures within { IfSome result (λ k. k < length ear.now) }
{
    for (k, x) in ear.iter().enumerate() {
        if among(ear, k, marks, *x) {
            return Some(k);
        }
        rows::mark(marks, *x as usize);
    }
    None
}

// 9: the first number that stood before. A short ear is searched, a longer one marked.
fn first_repeated(ear: &[u16]) -> Option<usize>
    ensures lowest { unwrap_or result (length ear.now) ≡ low (λ k. any (λ j. eqb (at ear.now j) (at ear.now k)) k) (length ear.now) }
    ensures within { IfSome result (λ k. k < length ear.now) }
{
    if ear.len() < 16 {
        return first_repeated_by(ear, &mut [0u8; 0]);
    }
    first_repeated_by(ear, &mut [0u8; 1024])
}

// 10: the first number that is not joined to the next.
fn first_not_joined(links: &[u16], index: &[u16], ear: &[u16]) -> Option<usize>
    requires { Indexed (table_of links.now) index.now }
    ensures lowest { unwrap_or result (pred (length ear.now)) ≡ low (λ k. not (joined (table_of links.now) (at ear.now k) (at ear.now (k + 1)))) (pred (length ear.now)) }
    ensures within { IfSome result (λ k. k < pred (length ear.now)) }
{
    (0..ear.len().saturating_sub(1)).find(|&k| !network::joined(links, index, ear[k], ear[k + 1]))
}

// a and b have no link, or a used one.
fn not_free(links: &[u16], index: &[u16], used: &[u8], a: u16, b: u16) -> bool
    requires { Indexed (table_of links.now) index.now }
    ensures { result ≡ (not (joined (table_of links.now) a b) || marked used.now (link_of (table_of links.now) a b)) }
{
    network::link_by(links, index, a, b).is_none_or(|l| 0 < rows::mark_at(used, l))
}

// 10 and 11: the first number that has no link to the next, or a used one.
fn first_not_free(links: &[u16], index: &[u16], used: &[u8], ear: &[u16]) -> Option<usize>
    requires { Indexed (table_of links.now) index.now }
    ensures lowest { unwrap_or result (pred (length ear.now)) ≡ low (λ k. not (joined (table_of links.now) (at ear.now k) (at ear.now (k + 1))) || marked used.now (link_of (table_of links.now) (at ear.now k) (at ear.now (k + 1)))) (pred (length ear.now)) }
    ensures within { IfSome result (λ k. k < pred (length ear.now)) }
{
    (0..ear.len().saturating_sub(1)).find(|&k| not_free(links, index, used, ear[k], ear[k + 1]))
}

// 14, over the part between the ends: the first switch that is born.
fn first_born(births: &[u16], part: &[u16]) -> Option<usize>
    ensures lowest { unwrap_or result (length part.now) ≡ low (λ k. marked births.now (at part.now k)) (length part.now) }
    ensures within { IfSome result (λ k. k < length part.now) }
{
    part.iter().position(|x| 0 < rows::entry(births, *x))
}

// 14: the first switch between the ends of a later ear that is born.
fn first_born_between(births: &[u16], initial: bool, ear: &[u16]) -> Option<usize>
    requires { 2 ≤ length ear.now }
    ensures lowest { unwrap_or result (length ear.now) ≡ low (born_between (marked births.now) initial ear.now) (length ear.now) }
    ensures within { IfSome result (λ k. k < length ear.now) }
{
    if initial {
        return None;
    }
    first_born(births, &ear[1..ear.len() - 1]).map(|k| k + 1)
}

// The fewest numbers of an ear: a cycle has 3, a path 2.
fn least_length(initial: bool) -> usize
    ensures { result ≡ cond initial 3 2 }
{
    if initial { 3 } else { 2 }
}

// The number of new switches of an ear of len numbers.
#[tactic(auto, unfolding(mondschein::specs::Network::new_count))]
fn new_count(initial: bool, len: u16) -> u16
    ensures { result ≡ new_count initial len }
{
    if initial { len } else { len.saturating_sub(2) }
}

// Checks 10, 14 and 11, in this order: the first refusal, or the number of new switches.
fn check_links(
    links: &[u16],
    index: &[u16],
    births: &[u16],
    used: &[u8],
    initial: bool,
    ear: &[u16],
) -> Result<u16, Refusal>
    requires { (2 ≤ length ear.now) × (length ear.now ≤ 65535) × Indexed (table_of links.now) index.now }
    ensures { LinkAnswer links.now births.now used.now initial ear.now (ear_answer result) }
{
    let not_free = first_not_free(links, index, used, ear);
    if not_free.is_some() {
        if let Some(apart) = first_not_joined(links, index, ear) {
            return Err(Refusal::NotJoined(apart as u16));
        }
    }
    if let Some(born) = first_born_between(births, initial, ear) {
        return Err(Refusal::BornBetween(born as u16));
    }
    if let Some(again) = not_free {
        return Err(Refusal::UsedAlready(again as u16));
    }
    Ok(new_count(initial, ear.len() as u16))
}

// The checks up to 11, in their order: the first refusal, or the number of new switches.
pub fn check_shape(
    n: u16,
    links: &[u16],
    index: &[u16],
    births: &[u16],
    used: &[u8],
    initial: bool,
    ear: &[u16],
) -> Result<u16, Refusal>
    requires { Indexed (table_of links.now) index.now }
    ensures { ShapeAnswer links.now births.now used.now initial ear.now (ear_answer result) n }
{
    let len = ear.len();
    if len < least_length(initial) || (n as usize) < len {
        return Err(Refusal::WrongLength);
    }
    if let Some(large) = first_too_large(ear, n) {
        return Err(Refusal::SwitchTooLarge(large as u16));
    }
    if let Some(twice) = first_repeated(ear) {
        return Err(Refusal::RepeatedSwitch(twice as u16));
    }
    check_links(links, index, births, used, initial, ear)
}
