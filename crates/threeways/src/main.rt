// threeways: reads standard input in blocks, hands their bytes to the dialogue, and writes the replies before it reads on.
// Memory is fixed: one block, one line, the numbers of an ear, the links collected and their ducts, replies, and the session with the index of its links.
#![tactic(auto)]

ghost use Rattle.std.specs.Prelude.{◌≡◌, ◌≤◌, IfSome, length};
ghost use Rattle.blocks.specs.Running.{EndsWith};

use blocks::{End, Ended};
use collect::Reader;
use in_place::Session;
use std::io::{Read, Stdin};

// Reads what comes next of the input to the start of a block: how many bytes, 0 at its end, or nothing where the read fails.
fn read_block(mut input: Stdin, block: &mut [u8]) -> Option<usize>
    ensures { IfSome result (λ n. n ≤ length block.new) }
{
    input.read(block).ok()
}

// Reads blocks to the end of the input, or until no more is read, or a read or a write fails.
// A proved loop has to end, and nothing says that an input does: it counts its turns up to a number that no run reaches.
fn run(
    input: Stdin,
    s: &mut Session,
    line: &mut [u8],
    numbers: &mut [u16],
    links: &mut [u16],
    ducts: &mut [u8],
    index: &mut [u16],
    out: &mut [u8],
) -> Ended
    requires { (length line.old ≡ 6145) × (3072 ≤ length numbers.old) × (length links.old ≡ 8192) × (length ducts.old ≡ 4096) × (8192 ≤ length out.old) }
    ensures { EndsWith result.end result.reader s.new links.new ducts.new line.new }
{
    let mut known = Reader::start();
    loading::clear_session(s, index);
    for _turn in 0..u64::MAX {
        let mut block = io::buffer();
        let Some(n) = read_block(input, &mut block) else {
            break;
        };
        if n == 0 {
            return blocks::end_input(known, s, line, numbers, links, ducts, index, out);
        }
        let bytes = &block[..n];
        known = match blocks::take_block(known, s, bytes, line, numbers, links, ducts, index, out) {
            Ok(known) => known,
            Err(reader) => {
                return Ended {
                    reader,
                    end: End::NotWritten,
                };
            }
        };
        if collect::over(known) {
            return Ended {
                reader: known,
                end: End::Over,
            };
        }
    }
    Ended {
        reader: known,
        end: End::NotRead,
    }
}

// Says on standard error what failed.
fn report(end: End) {
    match end {
        End::Input => {}
        End::Over => {}
        End::NotRead => {
            io::write_all(2, b"threeways: cannot read standard input\n");
        }
        End::NotWritten => {
            io::write_all(2, b"threeways: cannot write standard output\n");
        }
    }
}

fn main(rt: HostRuntime) {
    let mut session = Session::empty();
    let mut line = [0u8; 6145];
    let mut numbers = [0u16; 3072];
    let mut links = [0u16; 2 * (Session::MAX_LINKS as usize)];
    let mut ducts = [0u8; Session::MAX_LINKS as usize];
    let mut index = [0u16; network::INDEX_LENGTH];
    let mut out = [0u8; 16384];
    let ended = run(
        rt.stdin(),
        &mut session,
        &mut line,
        &mut numbers,
        &mut links,
        &mut ducts,
        &mut index,
        &mut out,
    );
    let end = ended.end;
    report(end);
}
