// Routes between two switches of card k, through the calls. Each answer is written as (routes from to (counts) (walks)), as (parted from to
// things), or as the line of a refusal.
#![tactic(auto)]

use refusals::Refusal;
use routing::{Loss, Routes, Things};
use session::Session;

// The numbers of a list, one space between them.
fn write_list(list: &[u16]) {
    for (i, number) in list.iter().enumerate() {
        if 0 < i {
            io::write_all(1, b" ");
        }
        io::print_decimal(1, u64::from(*number));
    }
}

// A line of a word and its numbers.
fn write_form(word: &[u8], numbers: &[u16]) {
    io::write_all(1, b"(");
    io::write_all(1, word);
    io::write_all(1, b" ");
    write_list(numbers);
    io::write_all(1, b")\n");
}

// The line of a refusal.
fn write_refusal(refusal: Refusal) {
    let number = refusal.number();
    write_form(b"refused", &[u16::from(number), refusal.place()]);
}

// Writes what a call gives, or the line of its refusal.
fn write_answer<T: Copy, F: FnOnce(T)>(answer: Result<T, Refusal>, write_values: F)
    requires { F.IsAlwaysCallable write_values }
{
    match answer {
        Ok(values) => write_values(values),
        Err(refusal) => write_refusal(refusal),
    }
}

// Loads a network into a fresh session, writes the answer, and gives the session after it.
fn load(n: u16, links: &[u16], root: u16, first: u16, last: u16) -> Session {
    let loaded = session::load_flat(Session::empty(), n, links, &[], root, first, last);
    write_answer(loaded.answer, |sizes| {
        write_form(b"opened", &[sizes.switches, sizes.links])
    });
    loaded.session
}

// Writes a thing whose loss parts two switches.
fn write_loss(loss: Loss) {
    let index = match loss {
        Loss::Switch(switch) => {
            io::write_all(1, b" (switch ");
            switch
        }
        Loss::Link(link) => {
            io::write_all(1, b" (link ");
            link
        }
    };
    io::print_decimal(1, u64::from(index));
    io::write_all(1, b")");
}

// Writes what parts two switches.
fn write_things(things: Things) {
    match things {
        Things::Nothing => {}
        Things::One(one) => write_loss(one),
        Things::Two(one, two) => {
            write_loss(one);
            write_loss(two);
        }
    }
}

// Writes the counts of three walks, and the walks out of the slice.
fn write_walks(from: u16, to: u16, counts: [u16; 3], walks: &[u16]) {
    io::write_all(1, b"(routes ");
    write_list(&[from, to]);
    io::write_all(1, b" (");
    write_list(&counts);
    io::write_all(1, b") (");
    let [a, b, c] = counts;
    let all = usize::from(a) + usize::from(b) + usize::from(c);
    write_list(rows::prefix(walks, all));
    io::write_all(1, b"))\n");
}

// Writes what parts two switches, and both.
fn write_parted(from: u16, to: u16, things: Things) {
    io::write_all(1, b"(parted ");
    write_list(&[from, to]);
    write_things(things);
    io::write_all(1, b")\n");
}

// Writes what routes of card k answers, and the walks out of the slice.
fn between(s: Session, from: u16, to: u16) {
    let mut out = [0u16; 10];
    let answer = routes::between(s, from, to, &mut out);
    write_answer(answer, |routes| match routes {
        Routes::Walks(a, b, c) => write_walks(from, to, [a, b, c], &out),
        Routes::Parted(things) => write_parted(from, to, things),
    });
}

// Closes, writes the answer, and gives the session after it.
fn close(s: Session) -> Session {
    let closing = session::close(s);
    write_answer(closing.answer, |_| {
        io::write_all(1, b"(closed)\n");
    });
    closing.session
}

// On the network of card k: three walks, and two switches that are parted, before any ear; and once card k is closed, two switches that are joined, and
// one switch alone.
fn main() {
    let links: [u16; 20] = [0, 1, 0, 2, 1, 2, 1, 3, 2, 3, 3, 4, 3, 5, 4, 5, 0, 4, 0, 5];
    let ears: [u16; 19] = [3, 0, 2, 1, 3, 2, 3, 1, 3, 3, 4, 0, 3, 3, 5, 4, 2, 0, 5];
    let s = load(6, &links, 0, 1, 5);
    between(s, 0, 3);
    between(s, 1, 4);
    let listed = session::ears(s, &ears);
    let s = close(listed.session);
    between(s, 0, 1);
    between(s, 5, 5);
}
