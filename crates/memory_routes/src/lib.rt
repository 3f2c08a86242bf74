// Three routes between two switches, document 02, Note 8, over the memory of struct threeways_session (include/threeways.h), lent part by part.
// The answer is told in plain numbers, struct threeways_between; links of another length than the struct's are refused with 255.
#![tactic(auto)]

ghost use Rattle.std.specs.Prelude.{◌≡◌};
ghost use Rattle.routing.specs.declared.Routes.TheVariants.{Parted};
ghost use Rattle.routing.specs.Answers.{thing_of, reply_of};
ghost use Rattle.memory.specs.Memory.{numbers_by, memory_by};
ghost use Rattle.memory_routes.specs.Routes.{routed_by, part_of, parted_by, routed_of, WritesRoutes};

use memory::{MARKS, ROW, Refusal};
use routing::{Loss, Routes, Things};

// The kinds of things; 0 stands where there is none.
pub const SWITCH: u16 = 1;

pub const LINK: u16 = 2;

// The refusal's number and place, 0 and 0 where there is an answer; the counts of the three walks, or 0; how many things part the two, and
// their kinds and numbers, or 0.
#[repr(C)]
#[derive(Clone, Copy)]
pub struct Routed {
    pub number: u8,
    pub place: u16,
    pub walk1: u16,
    pub walk2: u16,
    pub walk3: u16,
    pub things: u16,
    pub kind1: u16,
    pub thing1: u16,
    pub kind2: u16,
    pub thing2: u16,
}

// A thing in numbers: its kind, and the switch or the index of the link.
#[derive(Clone, Copy)]
struct Part {
    kind: u16,
    thing: u16,
}

// No thing in numbers.
fn no_part() -> Part
    ensures { result ≡ record { kind = 0; thing = 0 } }
{
    Part { kind: 0, thing: 0 }
}

// The numbers of a thing.
#[tactic(auto, unfolding(crate::specs::Routes::part_of))]
fn part_of(loss: Loss) -> Part
    ensures { result ≡ part_of (thing_of loss) }
{
    match loss {
        Loss::Switch(switch) => Part {
            kind: SWITCH,
            thing: switch,
        },
        Loss::Link(index) => Part {
            kind: LINK,
            thing: index,
        },
    }
}

// No refusal, no walks and no things.
const NOTHING_TOLD: Routed = Routed {
    number: 0,
    place: 0,
    walk1: 0,
    walk2: 0,
    walk3: 0,
    things: 0,
    kind1: 0,
    thing1: 0,
    kind2: 0,
    thing2: 0,
};

// A refusal: all other fields are 0.
fn refused(refusal: Refusal) -> Routed
    ensures { result ≡ routed_by refusal.number refusal.place 0 0 0 0 0 0 0 0 }
{
    Routed {
        number: refusal.number,
        place: refusal.place,
        ..NOTHING_TOLD
    }
}

// Three walks: their counts, and no things.
fn walks(walk1: u16, walk2: u16, walk3: u16) -> Routed
    ensures { result ≡ routed_by 0 0 walk1 walk2 walk3 0 0 0 0 0 }
{
    Routed {
        walk1,
        walk2,
        walk3,
        ..NOTHING_TOLD
    }
}

// So many things, and the numbers of two: no walks.
fn parted(things: u16, one: Part, two: Part) -> Routed
    ensures { result ≡ parted_by things one two }
{
    Routed {
        things,
        kind1: one.kind,
        thing1: one.thing,
        kind2: two.kind,
        thing2: two.thing,
        ..NOTHING_TOLD
    }
}

// The things that part two switches, in numbers.
#[tactic(auto, unfolding(crate::specs::Routes::routed_of, crate::specs::Routes::first_of, crate::specs::Routes::second_of))]
fn told_things(things: Things) -> Routed
    ensures { result ≡ routed_of (reply_of (Ok (Parted things))) }
{
    match things {
        Things::Nothing => parted(0, no_part(), no_part()),
        Things::One(one) => parted(1, part_of(one), no_part()),
        Things::Two(one, two) => parted(2, part_of(one), part_of(two)),
    }
}

// An answer in numbers.
#[tactic(auto, unfolding(crate::specs::Routes::routed_of))]
fn told(answer: Result<Routes, refusals::Refusal>) -> Routed
    ensures { result ≡ routed_of (reply_of answer) }
{
    match answer {
        Ok(Routes::Walks(walk1, walk2, walk3)) => walks(walk1, walk2, walk3),
        Ok(Routes::Parted(things)) => told_things(things),
        Err(refusal) => refused(Refusal::from(refusal)),
    }
}

// Writes three walks between two switches of a session that has a network, open or closed, one after another at the start of the slice, and
// tells their counts; or tells at most two things whose loss parts the two: 19 on an empty session, then checks 26 and 18.
pub fn routes(
    stage: u16,
    n: u16,
    m: u16,
    root: u16,
    first: u16,
    last: u16,
    longs: u16,
    born: u16,
    links: &[u16],
    from: u16,
    to: u16,
    out: &mut [u16],
) -> Routed
    ensures { WritesRoutes
        (λ ducts used births order tree1 tree2 tree3. memory_by (numbers_by stage n m root first last longs born)
        links.now ducts used births order tree1 tree2 tree3)
        from to out.old result out.new }
{
    if memory::wrong_lengths(links.len(), MARKS, MARKS, ROW, ROW, ROW, ROW, ROW) {
        return refused(memory::WRONG_LENGTHS);
    }
    let st = memory::state_of(stage, n, m, root, first, last, longs, born);
    let answer = routes::between_in(st, links, from, to, out);
    told(answer)
}
