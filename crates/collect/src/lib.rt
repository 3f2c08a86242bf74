// A line of the dialogue without the session: what it does to the network that is collected, what it asks of the session, and else its
// reply. The collected links stand at the start of a slice, two numbers each, their ducts in another; a reply is written at the start of a third.
#![tactic(auto)]

ghost use Rattle.std.specs.Prelude.{◌≡◌, ◌≤◌, length, take};
ghost use Rattle.lines.specs.declared.Form.TheVariants as Form·;
ghost use Rattle.replies.specs.Replies.{unread, reply};
ghost use Rattle.collect.specs.Answering.{fresh_kept, unread_count, Responds, Answers, own_count, Keeps, Over, Ends, start_reader};

use in_place::Session;
use lines::Form;

// What is collected: the numbers of the last net line, and the count of links.
#[derive(Clone, Copy)]
pub struct Kept {
    pub n: u16,
    pub root: u16,
    pub first: u16,
    pub last: u16,
    pub count: u16,
}

impl Kept {
    // Nothing collected.
    pub fn fresh() -> Self
        ensures { result ≡ fresh_kept }
    {
        Kept {
            n: 0,
            root: 0,
            first: 0,
            last: 0,
            count: 0,
        }
    }
}

// A call that gives another session; of an ear the count of its numbers.
#[derive(Clone, Copy, Debug, PartialEq, Eq)]
pub enum Call {
    Open,
    Ear(u16),
    Close,
    Clear,
}

// What a line asks of the session: the walk of a switch in a tree, or a call.
#[derive(Clone, Copy, Debug, PartialEq, Eq)]
pub enum Request {
    Walk(u16, u16),
    Call(Call),
}

// What a line that is read leads to: what is collected after it, and what it asks of the session, from where it has its reply.
#[derive(Clone, Copy)]
struct Asked {
    kept: Kept,
    request: Option<Request>,
}

// A line that cannot be read, after which no more is read: the count of the bytes of its reply.
#[derive(Clone, Copy)]
struct Unreadable {
    written: usize,
}

// Writes the reply to a line that cannot be read.
fn unread(number: u16, out: &mut [u8]) -> Unreadable
    requires { 8192 ≤ length out.old }
    ensures out_after { take result.written out.new ≡ reply (unread number) }
    ensures keeps { Keeps result.written out.old out.new }
{
    let written = replies::write_unread(out, number);
    Unreadable { written }
}

// Collects a link with its duct; one link too many is unread.
fn collect_link(
    d: Kept,
    number: u16,
    a: u16,
    b: u16,
    duct: u8,
    links: &mut [u16],
    ducts: &mut [u8],
    out: &mut [u8],
) -> Result<Asked, Unreadable>
    requires { (length links.old ≡ 8192) × (length ducts.old ≡ 4096) × (8192 ≤ length out.old) }
    ensures responds { Responds d links.old ducts.old number (Form·.Link a b duct) result links.new ducts.new out.new }
    ensures keeps { Keeps (unread_count result) out.old out.new }
{
    let count = d.count;
    if Session::MAX_LINKS <= count {
        return Err(unread(number, out));
    }
    let at = usize::from(count);
    let i = 2 * at;
    links[i] = a;
    links[i + 1] = b;
    ducts[at] = duct;
    let kept = Kept {
        count: count + 1,
        ..d
    };
    Ok(Asked {
        kept,
        request: None,
    })
}

// Does what a form says that was read, but for what it asks of the session.
#[tactic(auto, unfolding(crate::specs::Dialogue::respond, crate::specs::Answering::form_of, crate::specs::Answering::requested, crate::specs::Answering::respond_to))]
fn respond(
    d: Kept,
    number: u16,
    form: Form,
    links: &mut [u16],
    ducts: &mut [u8],
    out: &mut [u8],
) -> Result<Asked, Unreadable>
    requires { (length links.old ≡ 8192) × (length ducts.old ≡ 4096) × (8192 ≤ length out.old) }
    ensures responds { Responds d links.old ducts.old number form result links.new ducts.new out.new }
    ensures keeps { Keeps (unread_count result) out.old out.new }
{
    let request = match form {
        Form::Net(n, root, first, last) => {
            let kept = Kept {
                n,
                root,
                first,
                last,
                ..d
            };
            return Ok(Asked {
                kept,
                request: None,
            });
        }
        Form::Link(a, b, duct) => return collect_link(d, number, a, b, duct, links, ducts, out),
        Form::Open => Request::Call(Call::Open),
        Form::Ear(count) => Request::Call(Call::Ear(count)),
        Form::Close => Request::Call(Call::Close),
        Form::Walk(switch, tree) => Request::Walk(switch, tree),
        Form::Clear => Request::Call(Call::Clear),
        Form::Unread => return Err(unread(number, out)),
    };
    Ok(Asked {
        kept: d,
        request: Some(request),
    })
}

// Line number `number` with these bytes: what is collected after it, what it asks of the session, and else its reply.
fn answer(
    d: Kept,
    number: u16,
    bytes: &[u8],
    numbers: &mut [u16],
    links: &mut [u16],
    ducts: &mut [u8],
    out: &mut [u8],
) -> Result<Asked, Unreadable>
    requires { (3072 ≤ length numbers.old) × (length links.old ≡ 8192) × (length ducts.old ≡ 4096) × (8192 ≤ length out.old) }
    ensures answers { Answers d links.old ducts.old number bytes.now result numbers.new links.new ducts.new out.new }
    ensures keeps { Keeps (unread_count result) out.old out.new }
    ensures keeps_2 { Keeps 3072 numbers.old numbers.new }
{
    let line = lines::read_line(number, bytes, numbers);
    respond(d, number, line.form, links, ducts, out)
}

// What is known between two bytes of an input: what is collected, the number of the line that comes, the count of its bytes so far,
// and whether a line stopped the dialogue: the other fields are known in either case, so it is a flag and no option.
#[derive(Clone, Copy)]
pub struct Reader {
    pub kept: Kept,
    pub number: u32,
    pub held: usize,
    pub stopped: bool,
}

impl Reader {
    // Before the first byte.
    pub fn start() -> Self
        ensures { result ≡ start_reader }
    {
        Reader {
            kept: Kept::fresh(),
            number: 1,
            held: 0,
            stopped: false,
        }
    }
}

// Whether no more is read: a line stopped the dialogue, or 65,535 lines were read.
pub fn over(r: Reader) -> bool
    ensures { Over r result }
{
    r.stopped || 65535 < r.number
}

// What is known after a line, what the line asks of the session, and the count of the bytes of its own reply.
#[derive(Clone, Copy)]
pub struct Ending {
    pub reader: Reader,
    pub request: Option<Request>,
    pub written: usize,
}

// The line that is held ends: what is known after it, what it asks of the session, and else its reply.
pub fn end_line(
    r: Reader,
    line: &[u8],
    numbers: &mut [u16],
    links: &mut [u16],
    ducts: &mut [u8],
    out: &mut [u8],
) -> Ending
    requires { (3072 ≤ length numbers.old) × (length links.old ≡ 8192) × (length ducts.old ≡ 4096) × (8192 ≤ length out.old) }
    ensures ends { Ends r links.old ducts.old line.now result numbers.new links.new ducts.new out.new }
    ensures keeps { Keeps (own_count result.request result.written) out.old out.new }
    ensures keeps_2 { Keeps 3072 numbers.old numbers.new }
{
    if over(r) {
        return Ending {
            reader: r,
            request: None,
            written: 0,
        };
    }
    let held = r.held.min(line.len());
    let bytes = &line[..held];
    let answered = answer(r.kept, r.number as u16, bytes, numbers, links, ducts, out);
    let next = Reader {
        number: r.number + 1,
        held: 0,
        ..r
    };
    match answered {
        Ok(asked) => Ending {
            reader: Reader {
                kept: asked.kept,
                ..next
            },
            request: asked.request,
            written: 0,
        },
        Err(unread) => Ending {
            reader: Reader {
                stopped: true,
                ..next
            },
            request: None,
            written: unread.written,
        },
    }
}
