// Lines of threeways: the replies, written into a lent slice.
// A place is an index into the slice; bytes are written from there on.
#![tactic(auto)]

ghost use Rattle.std.specs.Prelude.{◌∷◌, map, ◌+◌, ◌*◌, ◌≤◌, length};
ghost use Rattle.lines.specs.Writing.{decimal, spaced, separated};
ghost use Rattle.refusals.specs.Refusals.{number, place};
ghost use Rattle.replies.specs.Replies.{head, line, reply, opened, new, refused, closed, walked, cleared, unread, Wrote, Printed};

use refusals::Refusal;

// Writes bytes from index at on, and gives the index after them.
fn put(out: &mut [u8], at: usize, bytes: &[u8]) -> usize
    requires { at + length bytes.now ≤ length out.old }
    ensures { Wrote at bytes.now out.old result out.new }
{
    let end = at + bytes.len();
    out[at..end].copy_from_slice(bytes);
    end
}

// Writes a number in decimal from index at on, a digit for each power of ten up to it and the last one, and gives the index after it.
fn put_number(out: &mut [u8], at: usize, n: u16) -> usize
    requires { at + length (decimal n) ≤ length out.old }
    ensures { Wrote at (decimal n) out.old result out.new }
{
    let mut next = at;
    let mut rest = n;
    for power in [10000, 1000, 100, 10] {
        if power <= n {
            out[next] = b'0' + (rest / power) as u8;
            next += 1;
            rest %= power;
        }
    }
    out[next] = b'0' + rest as u8;
    next + 1
}

// Writes numbers from index at on, each after one space, and gives the index after them.
fn put_spaced(out: &mut [u8], at: usize, numbers: &[u16]) -> usize
    requires { at + 6 * length numbers.now ≤ length out.old }
    ensures { Wrote at (spaced (map decimal numbers.now)) out.old result out.new × (result ≤ at + 6 * length numbers.now) }
{
    let mut next = at;
    for number in numbers {
        out[next] = b' ';
        next = put_number(out, next + 1, *number);
    }
    next
}

// Writes numbers from index at on, one space between, and gives the index after them.
fn put_separated(out: &mut [u8], at: usize, numbers: &[u16]) -> usize
    requires { at + 6 * length numbers.now ≤ length out.old }
    ensures { Wrote at (separated (map decimal numbers.now)) out.old result out.new × (result ≤ at + 6 * length numbers.now) }
{
    let Some((first, others)) = numbers.split_first() else {
        return at;
    };
    let next = put_number(out, at, *first);
    put_spaced(out, next, others)
}

// Writes the opening bracket, a word and numbers, each after one space, and gives the index after them.
fn put_head(out: &mut [u8], word: &[u8], numbers: &[u16]) -> usize
    requires { 1 + length word.now + 6 * length numbers.now ≤ length out.old }
    ensures { Wrote 0 (head word.now numbers.now) out.old result out.new × (result ≤ 1 + length word.now + 6 * length numbers.now) }
{
    let open = put(out, 0, b"(");
    let next = put(out, open, word);
    put_spaced(out, next, numbers)
}

// Writes a line of a word and numbers at the start of the slice, and gives the count of its bytes.
fn write_line(out: &mut [u8], word: &[u8], numbers: &[u16]) -> usize
    requires { 3 + length word.now + 6 * length numbers.now ≤ length out.old }
    ensures { Printed (line (word.now ∷ map decimal numbers.now)) out.old result out.new }
{
    let next = put_head(out, word, numbers);
    put(out, next, b")\n")
}

// Writes the reply to an open that loads: switches and links. Any reply but a walk has room in 32 bytes.
pub fn write_opened(out: &mut [u8], switches: u16, links: u16) -> usize
    requires { 32 ≤ length out.old }
    ensures { Printed (reply (opened switches links)) out.old result out.new }
{
    write_line(out, b"opened", &[switches, links])
}

// Writes the reply to an ear that is accepted: its number of new switches.
pub fn write_new(out: &mut [u8], count: u16) -> usize
    requires { 32 ≤ length out.old }
    ensures { Printed (reply (new count)) out.old result out.new }
{
    write_line(out, b"new", &[count])
}

// Writes the reply to a call that is refused: a number and a place.
pub fn write_refused(out: &mut [u8], number: u8, place: u16) -> usize
    requires { 32 ≤ length out.old }
    ensures { Printed (reply (refused number place)) out.old result out.new }
{
    write_line(out, b"refused", &[u16::from(number), place])
}

// The same of a refusal by name.
pub fn write_refusal(out: &mut [u8], refusal: Refusal) -> usize
    requires { 32 ≤ length out.old }
    ensures { Printed (reply (refused (number refusal) (place refusal))) out.old result out.new }
{
    let number = refusal.number();
    write_refused(out, number, refusal.place())
}

// Writes the reply to a close that succeeds.
pub fn write_closed(out: &mut [u8]) -> usize
    requires { 32 ≤ length out.old }
    ensures { Printed (reply closed) out.old result out.new }
{
    put(out, 0, b"(closed)\n")
}

// Writes the reply to a clear.
pub fn write_cleared(out: &mut [u8]) -> usize
    requires { 32 ≤ length out.old }
    ensures { Printed (reply cleared) out.old result out.new }
{
    put(out, 0, b"(cleared)\n")
}

// Writes the reply to a line that is no form, or to a link too many: the number of the line.
pub fn write_unread(out: &mut [u8], number: u16) -> usize
    requires { 32 ≤ length out.old }
    ensures { Printed (reply (unread number)) out.old result out.new }
{
    write_line(out, b"unread", &[number])
}

// Writes the reply to a walk: its switch, its tree and its switches; 1,024 switches have room in 6,166 bytes.
pub fn write_walk(out: &mut [u8], switch: u16, tree: u16, switches: &[u16]) -> usize
    requires { 22 + 6 * length switches.now ≤ length out.old }
    ensures { Printed (reply (walked switch tree switches.now)) out.old result out.new }
{
    let next = put_head(out, &lines::WALK, &[switch, tree]);
    let inner = put(out, next, b" (");
    let end = put_separated(out, inner, switches);
    put(out, end, b"))\n")
}
