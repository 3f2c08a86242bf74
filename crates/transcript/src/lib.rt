// The bytes of a line, held as the blocks of an input bring them.
// Of a line no more is held than shows that it is too long.
#![tactic(auto)]

ghost use Rattle.std.specs.Prelude.{◌≡◌, true, [], ◌∷◌, ◌++◌, ◌≤◌, ◌<◌, length, take, drop};
ghost use Rattle.transcript.specs.Transcript.{held_line, held_in};

// Holds one more byte of a line, and gives the count of its bytes; 6,145 of a line are enough.
#[tactic(auto, using(crate::proofs::Holding::hold_full, crate::proofs::Holding::hold_more))]
fn hold(line: &mut [u8], held: usize, byte: u8) -> usize
    requires { length line.old ≡ 6145 }
    ensures { take result line.new ≡ take 6145 (take held line.old ++ (byte ∷ [])) }
{
    if 6145 <= held {
        return held;
    }
    line[held] = byte;
    held + 1
}

// What a block leaves of a line: the count of its bytes that are held, the place after them in the block, and whether it ends there:
// count and place are known in either case, so it is a flag and no option.
#[derive(Clone, Copy)]
pub struct Held {
    pub held: usize,
    pub next: usize,
    pub ends: bool,
}

// Holds the bytes of a block from a place on, up to the next line feed, or to the byte that shows that the line is too long.
pub fn hold_line(line: &mut [u8], held: usize, block: &[u8], from: usize) -> Held
    requires { (length line.old ≡ 6145) × (from ≤ length block.now) }
    ensures block_after { held_in result line.new block.now ≡ held_line (take held line.old) (drop from block.now) }
    ensures next_in_bounds { (result.next ≤ length block.now) × (result.ends ≡ true → from < result.next) }
{
    let mut count = held;
    for (i, byte) in block[from..].iter().enumerate() {
        if *byte == b'\n' {
            return Held {
                held: count,
                next: from + i + 1,
                ends: true,
            };
        }
        count = hold(line, count, *byte);
        if 6144 < count {
            return Held {
                held: count,
                next: from + i + 1,
                ends: true,
            };
        }
    }
    Held {
        held: count,
        next: block.len(),
        ends: false,
    }
}
