// Load and clear in place: over the state of a session and its arrays, lent, with the index of its links, and of a session as a whole.
// What a session is, and what the calls in place promise by it, stands in in_place.
#![tactic(auto)]

ghost use Rattle.std.specs.Prelude.{◌≡◌, ◌++◌, ◌≤◌, length, drop};
ghost use Rattle.mondschein.specs.Judge.{wrong_size, loading};
ghost use Rattle.network.specs.Load.{network_of, load_answer};
ghost use Rattle.in_place.specs.Session.{empty_session, zeros, opened_with};
ghost use Rattle.in_place.specs.InPlace.{session_in, state_in, SizedAs, Paired, IndexedIn, KeepsIndex, LoadsIn};

use in_place::{Session, Stage, State};
use network::Loaded;
use refusals::Refusal;

// No link is stored, and no duct.
fn clear_links(links: &mut [u16], ducts: &mut [u8])
    ensures { (links.new ≡ zeros (length links.old)) × (ducts.new ≡ zeros (length ducts.old)) }
{
    links.fill(0);
    ducts.fill(0);
}

// No link is used, no switch born or in a tree.
fn clear_tables(
    used: &mut [u8],
    births: &mut [u16],
    order: &mut [u16],
    tree1: &mut [u16],
    tree2: &mut [u16],
    tree3: &mut [u16],
)
    ensures { (used.new ≡ zeros (length used.old)) × (births.new ≡ zeros (length births.old)) × (order.new ≡ zeros (length order.old)) × (tree1.new ≡ zeros (length tree1.old)) × (tree2.new ≡ zeros (length tree2.old)) × (tree3.new ≡ zeros (length tree3.old)) }
{
    used.fill(0);
    births.fill(0);
    order.fill(0);
    tree1.fill(0);
    tree2.fill(0);
    tree3.fill(0);
}

// Clears the session, and the index with it: always succeeds.
pub fn clear(
    links: &mut [u16],
    ducts: &mut [u8],
    used: &mut [u8],
    births: &mut [u16],
    order: &mut [u16],
    tree1: &mut [u16],
    tree2: &mut [u16],
    tree3: &mut [u16],
    index: &mut [u16],
) -> State
    requires { SizedAs links.old ducts.old used.old births.old order.old tree1.old tree2.old tree3.old }
    ensures { (session_in result links.new ducts.new used.new births.new order.new tree1.new tree2.new tree3.new ≡ empty_session) × IndexedIn result links.new index.new }
{
    network::make_index(&[], index);
    clear_links(links, ducts);
    clear_tables(used, births, order, tree1, tree2, tree3);
    State::empty()
}

// Check 1: N or M outside its limits, or half a link.
#[tactic(auto, unfolding(mondschein::specs::Judge::wrong_size, mondschein::specs::Network::size))]
fn wrong_size(n: u16, links: &[u16]) -> bool
    ensures { result ≡ wrong_size (network_of n links.now 0 0 0) 0 }
{
    let m = links.len() / 2;
    let switches = n < Session::MIN_SWITCHES || Session::MAX_SWITCHES < n;
    let pairs = m < Session::MIN_LINKS as usize || (Session::MAX_LINKS as usize) < m;
    switches || pairs || links.len() % 2 != 0
}

// Checks 1 to 6, with an index of its own: what they answer, N and M or a refusal.
#[tactic(auto, using(crate::proofs::Loads::right_size, crate::proofs::Loads::load_1, crate::proofs::Loads::load_rest))]
fn check_load(n: u16, links: &[u16], root: u16, first: u16, last: u16) -> Result<Loaded, Refusal>
    ensures { load_answer result ≡ loading (network_of n links.now root first last) }
{
    if wrong_size(n, links) {
        return Err(Refusal::WrongSize);
    }
    let mut index = [0u16; network::INDEX_LENGTH];
    network::make_index(links, &mut index);
    network::check_table(n, links, &index, root, first, last)
}

// Puts the list at the start of a row.
fn put_first<T: Copy>(row: &mut [T], list: &[T])
    requires { length list.now ≤ length row.old }
    ensures { row.new ≡ list.now ++ drop (length list.now) row.old }
{
    row[..list.len()].copy_from_slice(list);
}

// Stores a network, with its ducts and its index: nothing is born, and no link used. A link past the end of the ducts has duct 0.
fn store_network(
    n: u16,
    links: &[u16],
    ducts: &[u8],
    root: u16,
    first: u16,
    last: u16,
    table: &mut [u16],
    row: &mut [u8],
    used: &mut [u8],
    births: &mut [u16],
    order: &mut [u16],
    tree1: &mut [u16],
    tree2: &mut [u16],
    tree3: &mut [u16],
    index: &mut [u16],
) -> State
    requires { Paired links.now × SizedAs table.old row.old used.old births.old order.old tree1.old tree2.old tree3.old }
    ensures { (session_in result table.new row.new used.new births.new order.new tree1.new tree2.new tree3.new ≡ opened_with (network_of n links.now root first last) ducts.now) × IndexedIn result table.new index.new }
{
    network::make_index(links, index);
    clear_links(table, row);
    let m = links.len() / 2;
    put_first(table, links);
    put_first(row, rows::prefix(ducts, m));
    clear_tables(used, births, order, tree1, tree2, tree3);
    State {
        stage: Stage::Open,
        n,
        m: m as u16,
        root,
        first,
        last,
        longs: 0,
        born: 0,
    }
}

// Loads a network into an empty session, with the ducts of its links and its index: 20 on any other, then checks 1 to 6.
#[tactic(auto, using(crate::proofs::Loads::loaded_paired), unfolding(in_place::specs::Session::loaded_by, in_place::specs::Session::by_stage, mondschein::specs::Outcome::settle, mondschein::specs::Outcome::granted))]
pub fn load(
    st: &mut State,
    n: u16,
    links: &[u16],
    ducts: &[u8],
    root: u16,
    first: u16,
    last: u16,
    table: &mut [u16],
    row: &mut [u8],
    used: &mut [u8],
    births: &mut [u16],
    order: &mut [u16],
    tree1: &mut [u16],
    tree2: &mut [u16],
    tree3: &mut [u16],
    index: &mut [u16],
) -> Result<Loaded, Refusal>
    requires { SizedAs table.old row.old used.old births.old order.old tree1.old tree2.old tree3.old }
    ensures loads_in { LoadsIn (session_in st.old table.old row.old used.old births.old order.old tree1.old tree2.old tree3.old) (network_of n links.now root first last) ducts.now result (session_in st.new table.new row.new used.new births.new order.new tree1.new tree2.new tree3.new) }
    ensures keeps_index { KeepsIndex st.old table.old index.old (load_answer result) st.new table.new index.new }
{
    let stage = st.stage;
    let Stage::Empty = stage else {
        return Err(Refusal::SessionNotEmpty);
    };
    let loaded = check_load(n, links, root, first, last)?;
    *st = store_network(
        n, links, ducts, root, first, last, table, row, used, births, order, tree1, tree2, tree3,
        index,
    );
    Ok(loaded)
}

// The same, of a session as a whole.
pub fn load_session(
    s: &mut Session,
    n: u16,
    links: &[u16],
    ducts: &[u8],
    root: u16,
    first: u16,
    last: u16,
    index: &mut [u16],
) -> Result<Loaded, Refusal>
    ensures loads_in { LoadsIn s.old (network_of n links.now root first last) ducts.now result s.new }
    ensures keeps_index { KeepsIndex (state_in s.old) s.old.links index.old (load_answer result) (state_in s.new) s.new.links index.new }
{
    let mut st = s.state();
    let answer = load(
        &mut st,
        n,
        links,
        ducts,
        root,
        first,
        last,
        &mut s.links,
        &mut s.ducts,
        &mut s.used,
        &mut s.births,
        &mut s.order,
        &mut s.tree1,
        &mut s.tree2,
        &mut s.tree3,
        index,
    );
    s.set_state(st);
    answer
}

// Clears a session as a whole, and the index with it: always succeeds.
pub fn clear_session(s: &mut Session, index: &mut [u16])
    ensures { (s.new ≡ empty_session) × IndexedIn (state_in s.new) s.new.links index.new }
{
    let st = clear(
        &mut s.links,
        &mut s.ducts,
        &mut s.used,
        &mut s.births,
        &mut s.order,
        &mut s.tree1,
        &mut s.tree2,
        &mut s.tree3,
        index,
    );
    s.set_state(st);
}
