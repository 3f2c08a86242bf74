// A block of the input, and the end of the input: the dialogue takes the lines, and the replies are written on standard output.
// What is known afterwards is promised where they were written; a write that fails is an error.
#![tactic(auto)]

ghost use Rattle.std.specs.Prelude.{◌≡◌, ◌≤◌, IfOk, length};
ghost use Rattle.in_place.specs.InPlace.{state_in, IndexedIn};
ghost use Rattle.collect.specs.Answering.{Keeps};
ghost use Rattle.dialogue.specs.Taking.{Takes, Led};
ghost use Rattle.blocks.specs.Running.{EndsWith};

use collect::Reader;
use in_place::Session;

// Takes the lines of a block, and writes their replies; an error is what is known where a write failed.
pub fn take_block(
    r: Reader,
    s: &mut Session,
    block: &[u8],
    line: &mut [u8],
    numbers: &mut [u16],
    links: &mut [u16],
    ducts: &mut [u8],
    index: &mut [u16],
    out: &mut [u8],
) -> Result<Reader, Reader>
    requires { (length line.old ≡ 6145) × (3072 ≤ length numbers.old) × (length links.old ≡ 8192) × (length ducts.old ≡ 4096) × (8192 ≤ length out.old) × IndexedIn (state_in s.old) s.old.links index.old }
    ensures takes { IfOk result (λ known. Takes r s.old links.old ducts.old line.old block.now known s.new links.new ducts.new line.new) }
    ensures keeps { Keeps 3072 numbers.old numbers.new × IndexedIn (state_in s.new) s.new.links index.new }
{
    let mut known = r;
    let mut from = 0;
    // Each turn goes on where the replies to the turn before were full, so the turns are no count.
    while from < block.len() {
        let taken = dialogue::take_lines(
            known, s, block, from, line, numbers, links, ducts, index, out,
        );
        known = taken.reader;
        from = taken.next;
        if !io::write_all(1, dialogue::reply(out, taken.written)) {
            return Err(known);
        }
    }
    Ok(known)
}

// How a run ends: with the input, where no more is read, or where a read or a write failed.
#[derive(Clone, Copy, Debug, PartialEq, Eq)]
pub enum End {
    Input,
    Over,
    NotRead,
    NotWritten,
}

// What is known where a run ends, and how it ends.
#[derive(Clone, Copy)]
pub struct Ended {
    pub reader: Reader,
    pub end: End,
}

// At the end of the input: answers a final line without line feed.
pub fn end_input(
    r: Reader,
    s: &mut Session,
    line: &mut [u8],
    numbers: &mut [u16],
    links: &mut [u16],
    ducts: &mut [u8],
    index: &mut [u16],
    out: &mut [u8],
) -> Ended
    requires { (length line.old ≡ 6145) × (3072 ≤ length numbers.old) × (length links.old ≡ 8192) × (length ducts.old ≡ 4096) × (8192 ≤ length out.old) × IndexedIn (state_in s.old) s.old.links index.old }
    ensures { Led r s.old links.old ducts.old line.old → EndsWith result.end result.reader s.new links.new ducts.new line.new }
{
    let finished = dialogue::finish(r, s, line, numbers, links, ducts, index, out);
    let end = if io::write_all(1, dialogue::reply(out, finished.written)) {
        End::Input
    } else {
        End::NotWritten
    };
    Ended {
        reader: finished.reader,
        end,
    }
}
