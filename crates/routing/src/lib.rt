// Three walks between two switches, written one after another into a lent slice, or what parts the two (document 02, Note 8).
// Link tables are plain numbers, two for each link.
#![tactic(auto)]

ghost use Rattle.std.specs.Prelude.{◌≡◌, false, true, ◌∷◌, ◌+◌, ◌≤◌, ◌<◌, length, unwrap_or, IfSome};
ghost use Rattle.std.proofs.lemmas.List.Edits.{sets};
ghost use Rattle.mondschein.specs.Network.{low, at, link_of};
ghost use Rattle.mondschein.specs.Routes.{link};
ghost use Rattle.network.specs.Load.{table_of};
ghost use Rattle.network.specs.Index.{IndexedFrom};
ghost use Rattle.disjoint.specs.Matching.{unnamed, lowest, path_of, selves, in_cut, tries, answer_by, routes_of};
ghost use Rattle.disjoint.specs.Replies.{told_of, wrong_pair, routes_into};
ghost use Rattle.routing.specs.Answers.{things_of, told_by, in_cut_but};

use refusals::Refusal;

// What can be lost: a switch, or a link by its index in the table.
#[derive(Clone, Copy, Debug, PartialEq, Eq)]
pub enum Loss {
    Switch(u16),
    Link(u16),
}

// At most two things whose loss parts two switches: a type of its own, since there is no heap, and two options could hold a second alone.
#[derive(Clone, Copy, Debug, PartialEq, Eq)]
pub enum Things {
    Nothing,
    One(Loss),
    Two(Loss, Loss),
}

// The answer: the counts of the three walks, or what parts the two.
#[derive(Clone, Copy, Debug, PartialEq, Eq)]
pub enum Routes {
    Walks(u16, u16, u16),
    Parted(Things),
}

// The matching to begin with: every number is followed by itself.
fn selves() -> [u16; 1027]
    ensures { result ≡ selves }
{
    std::array::from_fn(|u| u as u16)
}

// Writes the walk that begins with copy u, from a place on. Gives the place after it.
fn write_path(next: &[u16], n: u16, s: u16, t: u16, u: u16, out: &mut [u16], place: u16) -> u16
    requires { (n ≤ 1024) × (place ≤ 4096) }
    ensures { (out.new ≡ sets out.old place (path_of n s t (at next.now) u)) × (result ≡ place + length (path_of n s t (at next.now) u)) × (result ≤ place + n + 2) }
{
    rows::store(out, place, s);
    let mut i = place + 1;
    let mut v = rows::entry(next, u);
    for _ in 0..n {
        if v == t {
            break;
        }
        rows::store(out, i, v);
        i += 1;
        v = rows::entry(next, v);
    }
    rows::store(out, i, v);
    i + 1
}

// Switch w is in the cut, and is not x.
#[tactic(auto, unfolding(crate::specs::Answers::in_cut_but))]
fn in_cut_but(next: &[u16], mark: &[u8], x: u16, w: u16) -> bool
    ensures { result ≡ in_cut_but next.now mark.now x w }
{
    0 < rows::mark_at(mark, w as usize)
        && rows::mark_at(mark, rows::entry(next, w) as usize) == 0
        && w != x
}

// The lowest switch in the cut but x.
fn first_in_cut(n: u16, next: &[u16], mark: &[u8], x: u16) -> Option<u16>
    ensures lowest { unwrap_or result n ≡ low (in_cut_but next.now mark.now x) n }
    ensures within { IfSome result (λ w. w < n) }
{
    (0..n).find(|&w| in_cut_but(next, mark, x, w))
}

// The direct link and the cut of a search that did not come to t.
fn parted_direct(n: u16, next: &[u16], mark: &[u8], direct: u16) -> Things
    ensures { things_of result ≡ link direct ∷ lowest n 1 (in_cut next.now mark.now) }
{
    let own = Loss::Link(direct);
    match first_in_cut(n, next, mark, n) {
        Some(x) => Things::Two(own, Loss::Switch(x)),
        None => Things::One(own),
    }
}

// The cut of a search that did not come to t.
fn parted_plain(n: u16, next: &[u16], mark: &[u8]) -> Things
    ensures { things_of result ≡ lowest n 2 (in_cut next.now mark.now) }
{
    let Some(x) = first_in_cut(n, next, mark, n) else {
        return Things::Nothing;
    };
    let first = Loss::Switch(x);
    let Some(y) = first_in_cut(n, next, mark, x) else {
        return Things::One(first);
    };
    let second = Loss::Switch(y);
    Things::Two(first, second)
}

// The answer where s and t are not joined.
fn answer_plain(n: u16, links: &[u16], index: &[u16], s: u16, t: u16, out: &mut [u16]) -> Routes
    requires { IndexedFrom (table_of links.now) 0 index.now × (n ≤ 1024) }
    ensures { told_by (Ok result) out.new ≡ told_of (answer_by (unnamed n links.now) s t false (tries (unnamed n links.now) s t 3 n selves)) out.old }
{
    let mut next = selves();
    if let Some(mark) = augmenting::tries(n, links, index, s, t, 3, &mut next) {
        return Routes::Parted(parted_plain(n, &next, &mark));
    }
    let a = write_path(&next, n, s, t, n, out, 0);
    let b = write_path(&next, n, s, t, n + 1, out, a);
    let c = write_path(&next, n, s, t, n + 2, out, b);
    Routes::Walks(a, b - a, c - b)
}

// The answer where they are: the direct link is one of the walks, or one of the things.
fn answer_direct(
    n: u16,
    links: &[u16],
    index: &[u16],
    s: u16,
    t: u16,
    direct: u16,
    out: &mut [u16],
) -> Routes
    requires { IndexedFrom (table_of links.now) 0 index.now × (n ≤ 1024) × (direct ≡ link_of (table_of links.now) s t) }
    ensures { told_by (Ok result) out.new ≡ told_of (answer_by (unnamed n links.now) s t true (tries (unnamed n links.now) s t 2 n selves)) out.old }
{
    let mut next = selves();
    if let Some(mark) = augmenting::tries(n, links, index, s, t, 2, &mut next) {
        return Routes::Parted(parted_direct(n, &next, &mark, direct));
    }
    rows::store(out, 0, s);
    rows::store(out, 1, t);
    let b = write_path(&next, n, s, t, n, out, 2);
    let c = write_path(&next, n, s, t, n + 1, out, b);
    Routes::Walks(2, b - 2, c - b)
}

// Three walks from s to t, written into the slice, or what parts the two. The index is made of one whose chains all lead past the last half-link.
fn answer(n: u16, links: &[u16], s: u16, t: u16, out: &mut [u16]) -> Routes
    requires { (n ≤ 1024) × (length links.now ≤ 8193) }
    ensures { told_by (Ok result) out.new ≡ told_of (routes_of (unnamed n links.now) s t) out.old }
{
    let mut index = [8192u16; 10240];
    network::make_index(links, &mut index);
    match network::link_by(links, &index, s, t) {
        Some(direct) => answer_direct(n, links, &index, s, t, direct as u16, out),
        None => answer_plain(n, links, &index, s, t, out),
    }
}

// 26: the two are equal, or one is n or more.
#[tactic(auto, unfolding(disjoint::specs::Replies::wrong_pair))]
fn wrong_pair(n: u16, s: u16, t: u16) -> bool
    ensures { result ≡ wrong_pair n s t }
{
    n <= s || n <= t || s == t
}

// Three walks from s to t at the start of the slice, or what parts the two: 26, then 18 where the slice is shorter than n + 4.
pub fn routes_between(
    n: u16,
    links: &[u16],
    s: u16,
    t: u16,
    out: &mut [u16],
) -> Result<Routes, Refusal>
    requires { (n ≤ 1024) × (length links.now ≤ 8193) }
    ensures { told_by result out.new ≡ routes_into (unnamed n links.now) s t out.old }
{
    if wrong_pair(n, s, t) {
        return Err(Refusal::WrongPair);
    }
    if out.len() < (n as usize) + 4 {
        return Err(Refusal::TooShort);
    }
    Ok(answer(n, links, s, t, out))
}
