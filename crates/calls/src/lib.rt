// One call or walk that a line asks of the session, in place, with its reply and what is known after both.
// The session is lent, and the index of its links beside it; a reply is written at the start of a slice.
#![tactic(auto)]

ghost use Rattle.std.specs.Prelude.{◌≡◌, ◌≤◌, length, take};
ghost use Rattle.mondschein.specs.Network.{at};
ghost use Rattle.network.specs.Load.{load_answer};
ghost use Rattle.judge.specs.Ear.{ear_answer};
ghost use Rattle.closing.specs.Closing.{close_answer};
ghost use Rattle.walks.specs.Walks.{walk_answer};
ghost use Rattle.in_place.specs.Session.{empty_session};
ghost use Rattle.in_place.specs.InPlace.{state_in, IndexedIn};
ghost use Rattle.replies.specs.Replies.{opened, new, closed, walked, cleared, reply, Printed};
ghost use Rattle.collect.specs.Dialogue.{reply_to};
ghost use Rattle.collect.specs.Answering.{fresh_kept, Keeps};
ghost use Rattle.calls.specs.Calling.{read_on, replied_in, replied_by, Opens, Offers, Closes, KeepsIndexed, ServesWalk};

use collect::{Kept, Reader};
use in_place::Session;
use network::Loaded;
use refusals::Refusal;

// The four replies to an answer are a match of two arms each: one function for all would take a closure over the lent slice with a contract.

// Writes the reply to load.
#[tactic(auto, unfolding(collect::specs::Dialogue::reply_to))]
fn reply_to_load(answer: Result<Loaded, Refusal>, out: &mut [u8]) -> usize
    requires { 32 ≤ length out.old }
    ensures { Printed (reply (reply_to (λ vs. opened (at vs 0) (at vs 1)) (load_answer answer))) out.old result out.new }
{
    match answer {
        Ok(loaded) => replies::write_opened(out, loaded.switches, loaded.links),
        Err(refusal) => replies::write_refusal(out, refusal),
    }
}

// Writes the reply to an ear.
#[tactic(auto, unfolding(collect::specs::Dialogue::reply_to))]
fn reply_to_ear(answer: Result<u16, Refusal>, out: &mut [u8]) -> usize
    requires { 32 ≤ length out.old }
    ensures { Printed (reply (reply_to (λ vs. new (at vs 0)) (ear_answer answer))) out.old result out.new }
{
    match answer {
        Ok(count) => replies::write_new(out, count),
        Err(refusal) => replies::write_refusal(out, refusal),
    }
}

// Writes the reply to close.
#[tactic(auto, unfolding(collect::specs::Dialogue::reply_to))]
fn reply_to_close(answer: Result<(), Refusal>, out: &mut [u8]) -> usize
    requires { 32 ≤ length out.old }
    ensures { Printed (reply (reply_to (λ vs. closed) (close_answer answer))) out.old result out.new }
{
    match answer {
        Ok(()) => replies::write_closed(out),
        Err(refusal) => replies::write_refusal(out, refusal),
    }
}

// Writes the reply to a walk, its switches at the start of a slice.
#[tactic(auto, unfolding(collect::specs::Dialogue::reply_to))]
fn reply_to_walk(
    answer: Result<u16, Refusal>,
    switch: u16,
    tree: u16,
    route: &[u16],
    out: &mut [u8],
) -> usize
    requires { (length route.now ≤ 1024) × (8192 ≤ length out.old) }
    ensures { Printed (reply (reply_to (λ vs. walked switch tree (take (at vs 0) route.now)) (walk_answer answer))) out.old result out.new }
{
    match answer {
        Ok(count) => {
            let switches = rows::prefix(route, usize::from(count));
            replies::write_walk(out, switch, tree, switches)
        }
        Err(refusal) => replies::write_refusal(out, refusal),
    }
}

// What is known after a line has what it asks of the session, and the count of the bytes of its reply.
#[derive(Clone, Copy)]
pub struct Called {
    pub reader: Reader,
    pub written: usize,
}

// What is known once a line is answered: more is read.
fn replied(r: Reader) -> Reader
    ensures { result ≡ read_on r }
{
    Reader {
        stopped: false,
        ..r
    }
}

// Loads the network that was collected, with its ducts.
pub fn open(
    r: Reader,
    s: &mut Session,
    links: &[u16],
    ducts: &[u8],
    index: &mut [u16],
    out: &mut [u8],
) -> Called
    requires { 8192 ≤ length out.old }
    ensures opens { Opens r s.old links.now ducts.now result.reader s.new (take result.written out.new) }
    ensures keeps { Keeps result.written out.old out.new × KeepsIndexed s.old index.old s.new index.new }
{
    let d = r.kept;
    let answer = loading::load_session(
        s,
        d.n,
        rows::prefix(links, 2 * usize::from(d.count)),
        rows::prefix(ducts, usize::from(d.count)),
        d.root,
        d.first,
        d.last,
        index,
    );
    let written = reply_to_load(answer, out);
    Called {
        reader: replied(r),
        written,
    }
}

// Offers an ear, the numbers at the start of a slice.
pub fn offer_ear(
    r: Reader,
    s: &mut Session,
    count: u16,
    numbers: &[u16],
    index: &[u16],
    out: &mut [u8],
) -> Called
    requires { (8192 ≤ length out.old) × IndexedIn (state_in s.old) s.old.links index.now }
    ensures offers { Offers r s.old (take count numbers.now) result.reader s.new (take result.written out.new) }
    ensures keeps { Keeps result.written out.old out.new × IndexedIn (state_in s.new) s.new.links index.now }
{
    let ear = rows::prefix(numbers, usize::from(count));
    let answer = s.offer(index, ear);
    let written = reply_to_ear(answer, out);
    Called {
        reader: replied(r),
        written,
    }
}

// Closes the session.
pub fn close(r: Reader, s: &mut Session, out: &mut [u8]) -> Called
    requires { 8192 ≤ length out.old }
    ensures closes { Closes r s.old result.reader s.new (take result.written out.new) }
    ensures keeps { Keeps result.written out.old out.new × (s.new.m ≡ s.old.m) × (s.new.links ≡ s.old.links) }
{
    let answer = s.try_close();
    let written = reply_to_close(answer, out);
    Called {
        reader: replied(r),
        written,
    }
}

// Drops what is collected, and clears the session.
pub fn clear(r: Reader, s: &mut Session, index: &mut [u16], out: &mut [u8]) -> Called
    requires { 8192 ≤ length out.old }
    ensures out_after { replied_in result.reader s.new (take result.written out.new) ≡ replied_by r fresh_kept empty_session cleared }
    ensures keeps { Keeps result.written out.old out.new × IndexedIn (state_in s.new) s.new.links index.new }
{
    loading::clear_session(s, index);
    let written = replies::write_cleared(out);
    let dropped = Reader {
        kept: Kept::fresh(),
        ..r
    };
    Called {
        reader: replied(dropped),
        written,
    }
}

// Gives the walk that a line asks for.
#[tactic(auto, unfolding(collect::specs::Dialogue::respond, collect::specs::Answering::requested))]
pub fn walk(r: Reader, s: &Session, switch: u16, tree: u16, out: &mut [u8]) -> Called
    requires { 8192 ≤ length out.old }
    ensures serves_walk { ServesWalk switch tree r s.now result.reader (take result.written out.new) }
    ensures keeps { Keeps result.written out.old out.new }
{
    let mut route = [0u16; Session::MAX_SWITCHES as usize];
    let answer = s.walk_of(switch, tree, &mut route);
    let written = reply_to_walk(answer, switch, tree, &route, out);
    Called {
        reader: replied(r),
        written,
    }
}
