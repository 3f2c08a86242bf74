// A line of the dialogue: it ends, and has what it asks of the session, the call or the walk that it names, with its reply.
// The session is lent, and the index of its links beside it; a reply is written at the start of a slice.
#![tactic(auto)]

ghost use Rattle.std.specs.Prelude.{◌≤◌, ◌≡◌, length, take};
ghost use Rattle.in_place.specs.InPlace.{state_in, IndexedIn};
ghost use Rattle.collect.specs.declared.Request.TheVariants as Request·;
ghost use Rattle.collect.specs.Answering.{Keeps};
ghost use Rattle.calls.specs.Calling.{Serves};
ghost use Rattle.serve.specs.Serving.{TakesLine};

use calls::Called;
use collect::{Call, Reader, Request};
use in_place::Session;

// Makes the call that a line asks for.
#[tactic(auto, unfolding(collect::specs::Dialogue::respond, collect::specs::Answering::form_of, collect::specs::Answering::requested))]
fn serve_call(
    r: Reader,
    s: &mut Session,
    call: Call,
    numbers: &[u16],
    links: &[u16],
    ducts: &[u8],
    index: &mut [u16],
    out: &mut [u8],
) -> Called
    requires { (8192 ≤ length out.old) × IndexedIn (state_in s.old) s.old.links index.old }
    ensures serves { Serves (Request·.Call call) numbers.now r s.old links.now ducts.now result.reader s.new (take result.written out.new) }
    ensures keeps { Keeps result.written out.old out.new × IndexedIn (state_in s.new) s.new.links index.new }
{
    match call {
        Call::Open => calls::open(r, s, links, ducts, index, out),
        Call::Ear(count) => calls::offer_ear(r, s, count, numbers, index, out),
        Call::Close => calls::close(r, s, out),
        Call::Clear => calls::clear(r, s, index, out),
    }
}

// The line that is held ends, and has what it asks of the session: what is known after it, and its reply at the start of a slice.
pub fn take_line(
    r: Reader,
    s: &mut Session,
    line: &[u8],
    numbers: &mut [u16],
    links: &mut [u16],
    ducts: &mut [u8],
    index: &mut [u16],
    out: &mut [u8],
) -> Called
    requires { (3072 ≤ length numbers.old) × (length links.old ≡ 8192) × (length ducts.old ≡ 4096) × (8192 ≤ length out.old) × IndexedIn (state_in s.old) s.old.links index.old }
    ensures takes_line { TakesLine r s.old links.old ducts.old line.now result.reader s.new links.new ducts.new (take result.written out.new) }
    ensures keeps { Keeps result.written out.old out.new × Keeps 3072 numbers.old numbers.new × IndexedIn (state_in s.new) s.new.links index.new }
{
    let ending = collect::end_line(r, line, numbers, links, ducts, out);
    let reader = ending.reader;
    match ending.request {
        None => Called {
            reader,
            written: ending.written,
        },
        Some(Request::Walk(switch, tree)) => calls::walk(reader, s, switch, tree, out),
        Some(Request::Call(call)) => {
            serve_call(reader, s, call, numbers, links, ducts, index, out)
        }
    }
}
