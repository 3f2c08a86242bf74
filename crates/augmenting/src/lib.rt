// The search for an augmenting path, and the matching led along it (document 02, Note 8): Rattle.disjoint.specs.Matching on lent slices.
// Link tables are plain numbers, two for each link, with their index of half-links; what a search enters is marked, and is its queue.
#![tactic(auto)]

ghost use Rattle.std.specs.Prelude.{◌≡◌, [], not, ◌&&◌, suc, ◌*◌, ◌≤◌, ◌<◌, ltb, is_some, unwrap_or};
ghost use Rattle.mondschein.specs.Network.{at, size};
ghost use Rattle.network.specs.Load.{table_of};
ghost use Rattle.network.specs.Index.{IndexedFrom};
ghost use Rattle.rows.specs.Rows.{marked, assigned};
ghost use Rattle.disjoint.specs.Matching.{unnamed, usable, left, explored_of, leaving, enter, leave_by, leave, turns, augment, tried_of, explore, matched, tries};

// Neither t nor w was entered before, and there is room for one more.
fn enterable(mark: &[u8], t: u16, w: u16, count: u16) -> bool
    ensures { result ≡ (not (marked mark.now t) && (not (marked mark.now w) && ltb count 1024)) }
{
    rows::mark_at(mark, t as usize) == 0 && rows::mark_at(mark, w as usize) == 0 && count < 1024
}

// From v to w: t is not left, s is not entered, and the direct link is not used.
#[tactic(auto, unfolding(disjoint::specs::Matching::usable))]
fn usable(s: u16, t: u16, v: u16, w: u16) -> bool
    ensures { result ≡ usable s t v w }
{
    v != t && w != s && (v != s || w != t)
}

// The left number of switch v: copy k for s.
#[tactic(auto, unfolding(disjoint::specs::Matching::left))]
fn left_of(s: u16, k: u16, v: u16) -> u16
    ensures { result ≡ left s k v }
{
    if v == s { k } else { v }
}

// Enters w from v, unless w or t was entered before. Gives the number of entries.
#[tactic(auto, unfolding(disjoint::specs::Matching::enter, disjoint::specs::Matching::entered))]
fn enter(
    s: u16,
    t: u16,
    k: u16,
    v: u16,
    w: u16,
    mark: &mut [u8],
    heads: &mut [u16],
    lefts: &mut [u16],
    count: u16,
) -> u16
    ensures { explored_of mark.new heads.new lefts.new result ≡ enter s t k v w (explored_of mark.old heads.old lefts.old count) }
{
    if !usable(s, t, v, w) || !enterable(mark, t, w, count) {
        return count;
    }
    rows::mark(mark, w as usize);
    rows::store(heads, count, w);
    rows::store(lefts, count, left_of(s, k, v));
    count + 1
}

// Enters what it can along the half-links of v. Gives the number of entries.
fn leave_by(
    links: &[u16],
    index: &[u16],
    s: u16,
    t: u16,
    k: u16,
    v: u16,
    mark: &mut [u8],
    heads: &mut [u16],
    lefts: &mut [u16],
    count: u16,
) -> u16
    requires { IndexedFrom (table_of links.now) 0 index.now × (v < 1024) }
    ensures { explored_of mark.new heads.new lefts.new result ≡ leave_by (table_of links.now) s t k v (2 * size (table_of links.now)) 0 (explored_of mark.old heads.old lefts.old count) }
{
    let m = links.len() / 2;
    let mut c = count;
    let mut h = index[v as usize] as usize;
    // A `while`: the turns follow the chain of the half-links of v to its end, which is past the last one.
    while h < 2 * m {
        c = enter(
            s,
            t,
            k,
            v,
            network::far_end(links, h),
            mark,
            heads,
            lefts,
            c,
        );
        h = index[2048 + h] as usize;
    }
    c
}

// Enters what it can from v: its neighbours, and v itself; a copy of s is not left again. Gives the number of entries.
fn leave(
    n: u16,
    links: &[u16],
    index: &[u16],
    s: u16,
    t: u16,
    k: u16,
    v: u16,
    mark: &mut [u8],
    heads: &mut [u16],
    lefts: &mut [u16],
    count: u16,
) -> u16
    requires { IndexedFrom (table_of links.now) 0 index.now × (n ≤ 1024) }
    ensures { explored_of mark.new heads.new lefts.new result ≡ leave (unnamed n links.now) s t k v (explored_of mark.old heads.old lefts.old count) }
{
    if n <= v {
        return count;
    }
    let c = leave_by(links, index, s, t, k, v, mark, heads, lefts, count);
    enter(s, t, k, v, v, mark, heads, lefts, c)
}

// The switch that turn q leaves: s, then the one that entry q - 1 followed on before the search.
#[tactic(auto, unfolding(disjoint::specs::Matching::leaving))]
fn leaving(s: u16, previous: &[u16], heads: &[u16], q: u16) -> u16
    ensures { result ≡ leaving s previous.now heads.now q }
{
    if q == 0 {
        s
    } else {
        rows::entry(previous, rows::entry(heads, q - 1))
    }
}

// The turns of a search, until t is entered or every entry had its turn. Gives the number of entries.
fn turns(
    n: u16,
    links: &[u16],
    index: &[u16],
    s: u16,
    t: u16,
    k: u16,
    previous: &[u16],
    mark: &mut [u8],
    heads: &mut [u16],
    lefts: &mut [u16],
) -> u16
    requires { IndexedFrom (table_of links.now) 0 index.now × (n ≤ 1024) }
    ensures { explored_of mark.new heads.new lefts.new result ≡ turns (unnamed n links.now) s t k previous.now (suc n) 0 (explored_of mark.old heads.old lefts.old 0) }
{
    let mut count: u16 = 0;
    for q in 0..n + 1 {
        if count < q || 0 < rows::mark_at(mark, t as usize) {
            return count;
        }
        let v = leaving(s, previous, heads, q);
        count = leave(n, links, index, s, t, k, v, mark, heads, lefts, count);
    }
    count
}

// The left number that each right number follows on, of those below k.
#[tactic(auto, unfolding(rows::specs::Rows::assigned))]
fn invert(next: &[u16], k: u16, previous: &mut [u16])
    ensures { previous.new ≡ assigned previous.old (at next.now) (λ u. u) k }
{
    for u in 0..k {
        rows::store(previous, rows::entry(next, u), u);
    }
}

// Leads the matching along the augmenting path of a search that came to t: copy k is matched too.
fn augment(k: u16, heads: &[u16], lefts: &[u16], count: u16, next: &mut [u16], t: u16)
    ensures { next.new ≡ augment k heads.now lefts.now count next.old t }
{
    let mut w = t;
    for j in (0..count).rev() {
        let h = rows::entry(heads, j);
        if h == w {
            let u = rows::entry(lefts, j);
            let old = rows::entry(next, u);
            rows::store(next, u, w);
            if u == k {
                return;
            }
            w = old;
        }
    }
}

// One search from copy k; where it comes to t, copy k is matched. Gives the marks.
#[tactic(auto, unfolding(disjoint::specs::Matching::explore, disjoint::specs::Matching::matched))]
fn attempt(
    n: u16,
    links: &[u16],
    index: &[u16],
    s: u16,
    t: u16,
    k: u16,
    next: &mut [u16],
) -> [u8; 1024]
    requires { IndexedFrom (table_of links.now) 0 index.now × (n ≤ 1024) }
    ensures { (result ≡ (explore (unnamed n links.now) s t k next.old).mark) × (next.new ≡ matched (unnamed n links.now) s t k next.old) }
{
    let mut previous = [0u16; 1024];
    let mut mark = [0u8; 1024];
    // The entries of a search stand in two arrays of fixed length, as `Explored` of the definition has them in two lists.
    let mut heads = [0u16; 1024];
    let mut lefts = [0u16; 1024];
    invert(next, k, &mut previous);
    let count = turns(
        n, links, index, s, t, k, &previous, &mut mark, &mut heads, &mut lefts,
    );
    if 0 < rows::mark_at(&mark, t as usize) {
        augment(k, &heads, &lefts, count, next, t);
    }
    mark
}

// Matches so many copies of s, one after another, until a search does not come to t: gives the marks of that search.
pub fn tries(
    n: u16,
    links: &[u16],
    index: &[u16],
    s: u16,
    t: u16,
    want: u16,
    next: &mut [u16],
) -> Option<[u8; 1024]>
    requires { IndexedFrom (table_of links.now) 0 index.now × (n ≤ 1024) × (want ≤ 3) }
    ensures { tried_of (is_some result) (unwrap_or result []) next.new ≡ tries (unnamed n links.now) s t want n next.old }
{
    for k in n..n + want {
        let mark = attempt(n, links, index, s, t, k, next);
        if rows::mark_at(&mark, t as usize) == 0 {
            return Some(mark);
        }
    }
    None
}
