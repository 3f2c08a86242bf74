// The memory of struct threeways_session (include/threeways.h): the numbers of a state, the lengths of the arrays, and what a call gives back.
// What a call does to that memory is defined in specs/Memory.antt, for any contents.
#![tactic(auto)]

ghost use Rattle.std.specs.Prelude.{◌≡◌};
ghost use Rattle.refusals.specs.Refusals.{number, place};
ghost use Rattle.memory.specs.Memory.{refusal_by, numbers_by, stage_of, stage_number, state_of, numbers_of, wrong_lengths};

use in_place::{Session, Stage, State};

// The lengths of the struct's arrays: of the link table, of a row by link (the ducts, and the marks of used links), and of a row by switch.
pub const LINKS: usize = 2 * (Session::MAX_LINKS as usize);

pub const MARKS: usize = Session::MAX_LINKS as usize;

pub const ROW: usize = Session::MAX_SWITCHES as usize;

// The numbers of the stages.
pub const EMPTY: u16 = 0;

pub const OPEN: u16 = 1;

pub const CLOSED: u16 = 2;

// The number and the place of a refusal; number 0 where the call succeeded.
#[repr(C)]
#[derive(Clone, Copy, Debug, PartialEq, Eq)]
pub struct Refusal {
    pub number: u8,
    pub place: u16,
}

// No refusal: the call succeeded.
pub const DONE: Refusal = Refusal {
    number: 0,
    place: 0,
};

// The refusal of arrays of other lengths.
pub const WRONG_LENGTHS: Refusal = Refusal {
    number: 255,
    place: 0,
};

// A refusal in numbers.
impl From<refusals::Refusal> for Refusal {
    ghost from_gives = { λ e r. r ≡ refusal_by (number e) (place e) };

    fn from(refusal: refusals::Refusal) -> Refusal {
        Refusal {
            number: refusal.number(),
            place: refusal.place(),
        }
    }
}

// The stage that a number means.
#[tactic(auto, unfolding(crate::specs::Memory::stage_of))]
fn stage_of(number: u16) -> Stage
    ensures { result ≡ stage_of number }
{
    match number {
        OPEN => Stage::Open,
        CLOSED => Stage::Closed,
        _ => Stage::Empty,
    }
}

// The number of a stage.
#[tactic(auto, unfolding(crate::specs::Memory::stage_number))]
fn stage_number(stage: Stage) -> u16
    ensures { result ≡ stage_number stage }
{
    match stage {
        Stage::Empty => EMPTY,
        Stage::Open => OPEN,
        Stage::Closed => CLOSED,
    }
}

// The state that the numbers mean.
pub fn state_of(
    stage: u16,
    n: u16,
    m: u16,
    root: u16,
    first: u16,
    last: u16,
    longs: u16,
    born: u16,
) -> State
    ensures { result ≡ state_of (numbers_by stage n m root first last longs born) }
{
    State {
        stage: stage_of(stage),
        n,
        m,
        root,
        first,
        last,
        longs,
        born,
    }
}

// Writes the numbers of a state.
pub fn put_state(
    st: State,
    stage: &mut u16,
    n: &mut u16,
    m: &mut u16,
    root: &mut u16,
    first: &mut u16,
    last: &mut u16,
    longs: &mut u16,
    born: &mut u16,
)
    ensures { numbers_by stage.new n.new m.new root.new
        first.new last.new longs.new born.new ≡ numbers_of st }
{
    *stage = stage_number(st.stage);
    *n = st.n;
    *m = st.m;
    *root = st.root;
    *first = st.first;
    *last = st.last;
    *longs = st.longs;
    *born = st.born;
}

// Arrays of other lengths than the struct's.
#[tactic(auto, unfolding(crate::specs::Memory::wrong_lengths))]
pub fn wrong_lengths(
    links: usize,
    ducts: usize,
    used: usize,
    births: usize,
    order: usize,
    tree1: usize,
    tree2: usize,
    tree3: usize,
) -> bool
    ensures { result ≡ wrong_lengths links ducts used births order tree1 tree2 tree3 }
{
    let by_link = links != LINKS || ducts != MARKS || used != MARKS;
    let by_switch = births != ROW || order != ROW;
    by_link || by_switch || tree1 != ROW || tree2 != ROW || tree3 != ROW
}
