// What a session is, and ear, close, parent and walk in place: over what it holds beside its arrays, lent where a call writes it, and the arrays, lent.
// An index of the links may be lent beside them; a slice of another length than an index means that there is none.
#![tactic(auto)]

ghost use Rattle.std.specs.Prelude.{◌≡◌, [], ◌*◌, eqb, length, take};
ghost use Rattle.mondschein.specs.Judge.{given, refused};
ghost use Rattle.mondschein.specs.EmptyEar.{is_empty};
ghost use Rattle.mondschein.specs.Order.{shortest};
ghost use Rattle.judge.specs.Ear.{ear_answer};
ghost use Rattle.closing.specs.Closing.{close_answer};
ghost use Rattle.walks.specs.Walks.{parent_answer, walk_answer};
ghost use Rattle.in_place.specs.Session.{empty_session, by_stage, offered_by, closed_by};
ghost use Rattle.in_place.specs.Queries.{row_of, parent_by, walked_by};
ghost use Rattle.in_place.specs.InPlace.{empty_state, state_in, with_state, SizedForThird, IndexedIn, JudgesOpen, OffersOpen, OffersIn, ClosesOpen, ClosesIn, ParentIn, WalksIn};

use network::{MAX_LINKS, MAX_SWITCHES};
use refusals::Refusal;

#[derive(Clone, Copy, Debug, PartialEq, Eq)]
pub enum Stage {
    Empty,
    Open,
    Closed,
}

impl Stage {
    // What only a closed session gives: 19 on an empty one, 21 on an open one.
    pub fn require_closed(self) -> Result<(), Refusal>
        ensures { close_answer result ≡ by_stage self (refused 19 0) (refused 21 0) (given []) }
    {
        match self {
            Stage::Empty => Err(Refusal::SessionEmpty),
            Stage::Open => Err(Refusal::SessionOpen),
            Stage::Closed => Ok(()),
        }
    }
}

// The network (its table flat, as lent) with the ducts of its links, used links (1), the count of long ears, births by long ear (0 unborn), the order with its
// count `born`, and the three parent tables.
#[derive(Clone, Copy)]
pub struct Session {
    pub stage: Stage,
    pub n: u16,
    pub m: u16,
    pub root: u16,
    pub first: u16,
    pub last: u16,
    pub links: [u16; 2 * (MAX_LINKS as usize)],
    pub ducts: [u8; MAX_LINKS as usize],
    pub used: [u8; MAX_LINKS as usize],
    pub longs: u16,
    pub births: [u16; MAX_SWITCHES as usize],
    pub born: u16,
    pub order: [u16; MAX_SWITCHES as usize],
    pub tree1: [u16; MAX_SWITCHES as usize],
    pub tree2: [u16; MAX_SWITCHES as usize],
    pub tree3: [u16; MAX_SWITCHES as usize],
}

impl Session {
    pub const MIN_SWITCHES: u16 = 4;

    pub const MAX_SWITCHES: u16 = network::MAX_SWITCHES;

    pub const MIN_LINKS: u16 = 6;

    pub const MAX_LINKS: u16 = network::MAX_LINKS;

    // The fresh session.
    pub fn empty() -> Self
        ensures { result ≡ empty_session }
    {
        Session {
            stage: Stage::Empty,
            n: 0,
            m: 0,
            root: 0,
            first: 0,
            last: 0,
            links: [0u16; 2 * (MAX_LINKS as usize)],
            ducts: [0u8; MAX_LINKS as usize],
            used: [0u8; MAX_LINKS as usize],
            longs: 0,
            births: [0u16; MAX_SWITCHES as usize],
            born: 0,
            order: [0u16; MAX_SWITCHES as usize],
            tree1: [0u16; MAX_SWITCHES as usize],
            tree2: [0u16; MAX_SWITCHES as usize],
            tree3: [0u16; MAX_SWITCHES as usize],
        }
    }
}

// What a session holds beside its arrays.
#[derive(Clone, Copy)]
pub struct State {
    pub stage: Stage,
    pub n: u16,
    pub m: u16,
    pub root: u16,
    pub first: u16,
    pub last: u16,
    pub longs: u16,
    pub born: u16,
}

impl State {
    // The state of the fresh session.
    pub fn empty() -> Self
        ensures { result ≡ empty_state }
    {
        State {
            stage: Stage::Empty,
            n: 0,
            m: 0,
            root: 0,
            first: 0,
            last: 0,
            longs: 0,
            born: 0,
        }
    }
}

// The links that are stored: the first 2 M numbers of the table, and no more than there are.
pub fn stored(m: u16, links: &[u16]) -> &[u16]
    ensures { result.now ≡ take (2 * m) links.now }
{
    rows::prefix(links, 2 * (m as usize))
}

// Checks 7 to 16, and the ear written into the tables where they are clear.
fn ear_open(
    st: &mut State,
    links: &[u16],
    index: &[u16],
    used: &mut [u8],
    births: &mut [u16],
    order: &mut [u16],
    tree1: &mut [u16],
    tree2: &mut [u16],
    ear: &[u16],
) -> Result<u16, Refusal>
    requires { (length order.old ≡ 1024) × IndexedIn st.old links.now index.now }
    ensures { JudgesOpen st.old links.now used.old births.old order.old tree1.old tree2.old ear.now result st.new used.new births.new order.new tree1.new tree2.new }
{
    let table = stored(st.m, links);
    let initial = st.born == 0;
    let count = judge::judge(
        st.n, table, index, st.root, st.first, st.last, births, used, initial, ear,
    )?;
    let counts = tables::accept(
        table, index, ear, st.longs, st.born, used, births, order, tree1, tree2,
    );
    st.longs = counts.longs;
    st.born = counts.born;
    Ok(count)
}

// The ear is an empty one: it has no number, and is not the first.
fn is_empty(born: u16, ear: &[u16]) -> bool
    ensures { result ≡ is_empty (eqb born 0) ear.now }
{
    born != 0 && ear.len() == 0
}

// An empty ear takes the leftover links; any other is judged.
fn enter_open(
    st: &mut State,
    links: &[u16],
    index: &[u16],
    used: &mut [u8],
    births: &mut [u16],
    order: &mut [u16],
    tree1: &mut [u16],
    tree2: &mut [u16],
    ear: &[u16],
) -> Result<u16, Refusal>
    requires { (length order.old ≡ 1024) × IndexedIn st.old links.now index.now }
    ensures { OffersOpen st.old links.now used.old births.old order.old tree1.old tree2.old ear.now result st.new used.new births.new order.new tree1.new tree2.new }
{
    if is_empty(st.born, ear) {
        left_over::take_left_over(stored(st.m, links), births, used);
        Ok(0)
    } else {
        ear_open(st, links, index, used, births, order, tree1, tree2, ear)
    }
}

// The same, by one search of the link for a later ear of two numbers that is accepted.
fn offer_open(
    st: &mut State,
    links: &[u16],
    index: &[u16],
    used: &mut [u8],
    births: &mut [u16],
    order: &mut [u16],
    tree1: &mut [u16],
    tree2: &mut [u16],
    ear: &[u16],
) -> Result<u16, Refusal>
    requires { (length order.old ≡ 1024) × IndexedIn st.old links.now index.now }
    ensures { OffersOpen st.old links.now used.old births.old order.old tree1.old tree2.old ear.now result st.new used.new births.new order.new tree1.new tree2.new }
{
    let table = stored(st.m, links);
    let link = judge::short_link(st.n, table, index, births, used, st.born == 0, ear);
    if let Some(link) = link {
        st.born = tables::accept_short(link, st.born, used, order);
        return Ok(0);
    }
    enter_open(st, links, index, used, births, order, tree1, tree2, ear)
}

// Offers an ear to an open session: 19 on an empty one, 22 on a closed one; then an empty ear after the first one takes the leftover
// links, and any other is judged by checks 7 to 16.
pub fn ear_in(
    st: &mut State,
    links: &[u16],
    index: &[u16],
    used: &mut [u8],
    births: &mut [u16],
    order: &mut [u16],
    tree1: &mut [u16],
    tree2: &mut [u16],
    ear: &[u16],
) -> Result<u16, Refusal>
    requires { (length order.old ≡ 1024) × IndexedIn st.old links.now index.now }
    ensures { OffersIn st.old links.now used.old births.old order.old tree1.old tree2.old ear.now result st.new used.new births.new order.new tree1.new tree2.new }
{
    match st.stage {
        Stage::Empty => Err(Refusal::SessionEmpty),
        Stage::Open => offer_open(st, links, index, used, births, order, tree1, tree2, ear),
        Stage::Closed => Err(Refusal::SessionClosed),
    }
}

// Check 23, and tree 3 where it is clear.
fn close_open(
    st: &mut State,
    links: &[u16],
    used: &[u8],
    births: &[u16],
    tree3: &mut [u16],
) -> Result<(), Refusal>
    requires { SizedForThird links.now births.now tree3.old }
    ensures { ClosesOpen st.old links.now used.now births.now tree3.old result st.new tree3.new }
{
    let table = stored(st.m, links);
    closing::check_used(table, used)?;
    thirds::set_tree3(tree3, st.n, table, st.root, st.last, births);
    st.stage = Stage::Closed;
    Ok(())
}

// Closes an open session: 19 on an empty one, 22 on a closed one, then check 23.
pub fn close_in(
    st: &mut State,
    links: &[u16],
    used: &[u8],
    births: &[u16],
    tree3: &mut [u16],
) -> Result<(), Refusal>
    requires { SizedForThird links.now births.now tree3.old }
    ensures { ClosesIn st.old links.now used.now births.now tree3.old result st.new tree3.new }
{
    match st.stage {
        Stage::Empty => Err(Refusal::SessionEmpty),
        Stage::Open => close_open(st, links, used, births, tree3),
        Stage::Closed => Err(Refusal::SessionClosed),
    }
}

// The row of tree 1, 2 or 3.
fn row_of<'a>(tree1: &'a [u16], tree2: &'a [u16], tree3: &'a [u16], tree: u16) -> &'a [u16]
    ensures { result.now ≡ row_of tree1.now tree2.now tree3.now tree }
{
    match tree {
        1 => tree1,
        2 => tree2,
        _ => tree3,
    }
}

// The entry of a switch in the table of a tree, 1 to 3: 19 on an empty session, 21 on an open one, then check 17.
pub fn parent_in(
    st: State,
    tree1: &[u16],
    tree2: &[u16],
    tree3: &[u16],
    switch: u16,
    tree: u16,
) -> Result<u16, Refusal>
    ensures { ParentIn st tree1.now tree2.now tree3.now switch tree result }
{
    st.stage.require_closed()?;
    if walks::unknown(st.n, switch, tree) {
        return Err(Refusal::Unknown);
    }
    Ok(rows::entry(row_of(tree1, tree2, tree3, tree), switch))
}

// The walk of a switch in a tree, 1 to 3, at the start of the slice: 19 on an empty session, 21 on an open one, then checks 17 and 18.
pub fn walk_in(
    st: State,
    tree1: &[u16],
    tree2: &[u16],
    tree3: &[u16],
    switch: u16,
    tree: u16,
    out: &mut [u16],
) -> Result<u16, Refusal>
    ensures { WalksIn st tree1.now tree2.now tree3.now switch tree out.old result out.new }
{
    st.stage.require_closed()?;
    if walks::unknown(st.n, switch, tree) {
        return Err(Refusal::Unknown);
    }
    walks::walk_by(
        row_of(tree1, tree2, tree3, tree),
        st.n,
        st.root,
        switch,
        out,
    )
}

impl Session {
    // What a session holds beside its arrays.
    pub fn state(&self) -> State
        ensures { result ≡ state_in self.now }
    {
        State {
            stage: self.stage,
            n: self.n,
            m: self.m,
            root: self.root,
            first: self.first,
            last: self.last,
            longs: self.longs,
            born: self.born,
        }
    }

    // The same arrays, with another state.
    pub fn set_state(&mut self, st: State)
        ensures { self.new ≡ with_state self.old st }
    {
        self.stage = st.stage;
        self.n = st.n;
        self.m = st.m;
        self.root = st.root;
        self.first = st.first;
        self.last = st.last;
        self.longs = st.longs;
        self.born = st.born;
    }

    // Offers an ear to an open session, with the index of its links, or none.
    pub fn offer(&mut self, index: &[u16], ear: &[u16]) -> Result<u16, Refusal>
        requires { IndexedIn (state_in self.old) self.old.links index.now }
        ensures { record { answer = ear_answer result; after = self.new } ≡ offered_by self.old ear.now }
    {
        let mut st = self.state();
        let answer = ear_in(
            &mut st,
            &self.links,
            index,
            &mut self.used,
            &mut self.births,
            &mut self.order,
            &mut self.tree1,
            &mut self.tree2,
            ear,
        );
        self.set_state(st);
        answer
    }

    // Closes an open session: 19 on an empty one, 22 on a closed one, then check 23.
    pub fn try_close(&mut self) -> Result<(), Refusal>
        ensures { record { answer = close_answer result; after = self.new } ≡ closed_by shortest self.old }
    {
        let mut st = self.state();
        let answer = close_in(
            &mut st,
            &self.links,
            &self.used,
            &self.births,
            &mut self.tree3,
        );
        self.set_state(st);
        answer
    }

    // The entry of a switch in the table of a tree, 1 to 3: 19 on an empty session, 21 on an open one, then check 17.
    pub fn parent_of(&self, switch: u16, tree: u16) -> Result<u16, Refusal>
        ensures { parent_answer result ≡ parent_by self.now switch tree }
    {
        parent_in(
            self.state(),
            &self.tree1,
            &self.tree2,
            &self.tree3,
            switch,
            tree,
        )
    }

    // The walk of a switch in a tree, 1 to 3, at the start of the slice: 19 on an empty session, 21 on an open one, then checks 17 and 18.
    pub fn walk_of(&self, switch: u16, tree: u16, out: &mut [u16]) -> Result<u16, Refusal>
        ensures { record { answer = walk_answer result; after = out.new } ≡ walked_by self.now switch tree out.old }
    {
        walk_in(
            self.state(),
            &self.tree1,
            &self.tree2,
            &self.tree3,
            switch,
            tree,
            out,
        )
    }
}
