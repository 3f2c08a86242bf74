// The lines of a block: each is held, ended, and has what it asks of the session; their replies stand one after another in a slice.
// The collected links stand at the start of another, two numbers each, and their ducts in a third; the session is lent.
#![tactic(auto)]

ghost use Rattle.std.specs.Prelude.{◌≡◌, ◌≤◌, ◌<◌, length, take};
ghost use Rattle.in_place.specs.InPlace.{state_in, IndexedIn};
ghost use Rattle.collect.specs.Answering.{Keeps};
ghost use Rattle.dialogue.specs.Taking.{TakesLines, Finishes};

use collect::Reader;
use in_place::Session;

// The bytes of a reply.
pub fn reply(out: &[u8], written: usize) -> &[u8]
    ensures { result.now ≡ take written out.now }
{
    &out[..written.min(out.len())]
}

// What is known where the lines of a block have been taken, the place in the block, and the count of the bytes of their replies.
#[derive(Clone, Copy)]
pub struct Taken {
    pub reader: Reader,
    pub next: usize,
    pub written: usize,
}

// Takes the lines of a block from a place on, each with what it asks of the session, as long as there is room for a reply; where no more
// is read, the rest of the block.
pub fn take_lines(
    r: Reader,
    s: &mut Session,
    block: &[u8],
    from: usize,
    line: &mut [u8],
    numbers: &mut [u16],
    links: &mut [u16],
    ducts: &mut [u8],
    index: &mut [u16],
    out: &mut [u8],
) -> Taken
    requires { (from ≤ length block.now) × (length line.old ≡ 6145) × (3072 ≤ length numbers.old) × (length links.old ≡ 8192) × (length ducts.old ≡ 4096) × (8192 ≤ length out.old) × IndexedIn (state_in s.old) s.old.links index.old }
    ensures takes_lines { TakesLines r s.old links.old ducts.old line.old block.now from result.reader s.new links.new ducts.new line.new result.next (take result.written out.new) }
    ensures next_in_bounds { (result.next ≤ length block.now) × (from < length block.now → from < result.next) }
    ensures keeps { Keeps result.written out.old out.new × Keeps 3072 numbers.old numbers.new × IndexedIn (state_in s.new) s.new.links index.new }
{
    let mut reader = r;
    let mut next = from;
    let mut written = 0;
    // A cursor follows the lines of the block, so the turns are no count.
    while next < block.len() {
        if collect::over(reader) {
            next = block.len();
            break;
        }
        if out.len() - written < 8192 {
            break;
        }
        let h = transcript::hold_line(line, reader.held, block, next);
        reader.held = h.held;
        next = h.next;
        if !h.ends {
            break;
        }
        let called = serve::take_line(
            reader,
            s,
            line,
            numbers,
            links,
            ducts,
            index,
            &mut out[written..],
        );
        reader = called.reader;
        written += called.written.min(out.len() - written);
    }
    Taken {
        reader,
        next,
        written,
    }
}

// What is known at the end of the input, and the count of the bytes of the last reply.
#[derive(Clone, Copy)]
pub struct Finished {
    pub reader: Reader,
    pub written: usize,
}

// The end of the input: a final line without line feed ends, as if it had one.
pub fn finish(
    r: Reader,
    s: &mut Session,
    line: &mut [u8],
    numbers: &mut [u16],
    links: &mut [u16],
    ducts: &mut [u8],
    index: &mut [u16],
    out: &mut [u8],
) -> Finished
    requires { (length line.old ≡ 6145) × (3072 ≤ length numbers.old) × (length links.old ≡ 8192) × (length ducts.old ≡ 4096) × (8192 ≤ length out.old) × IndexedIn (state_in s.old) s.old.links index.old }
    ensures finishes { Finishes r s.old links.old ducts.old line.old result.reader s.new links.new ducts.new line.new (take result.written out.new) }
    ensures keeps { Keeps result.written out.old out.new × Keeps 3072 numbers.old numbers.new × IndexedIn (state_in s.new) s.new.links index.new }
{
    if r.held == 0 {
        return Finished {
            reader: r,
            written: 0,
        };
    }
    let taken = take_lines(r, s, b"\n", 0, line, numbers, links, ducts, index, out);
    Finished {
        reader: taken.reader,
        written: taken.written,
    }
}
