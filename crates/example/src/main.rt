// The worked example of document 01, its cards i and l and the cards below them, zones of card k, card k brought over, and lists of ears, through
// the calls. Each answer is written as the lines of document 01 write it, that of parent as (parent switch tree entry), that of zones as (zones
// sizes (zone of each switch)), that of a list as (accepted ears), that of bringing over as (brought over).
#![tactic(auto)]

use refusals::Refusal;
use session::Session;

// The numbers of a list, one space between them.
fn write_list(list: &[u16]) {
    for (i, number) in list.iter().enumerate() {
        if 0 < i {
            io::write_all(1, b" ");
        }
        io::print_decimal(1, u64::from(*number));
    }
}

// A line of a word and its numbers.
fn write_form(word: &[u8], numbers: &[u16]) {
    io::write_all(1, b"(");
    io::write_all(1, word);
    io::write_all(1, b" ");
    write_list(numbers);
    io::write_all(1, b")\n");
}

// A line of a word and its numbers, and a list in brackets after them.
fn write_form_and_list(word: &[u8], numbers: &[u16], list: &[u16]) {
    io::write_all(1, b"(");
    io::write_all(1, word);
    io::write_all(1, b" ");
    write_list(numbers);
    io::write_all(1, b" (");
    write_list(list);
    io::write_all(1, b"))\n");
}

// The line of a refusal.
fn write_refusal(refusal: Refusal) {
    let number = refusal.number();
    write_form(b"refused", &[u16::from(number), refusal.place()]);
}

// Writes what a call gives, or the line of its refusal.
fn write_answer<T: Copy, F: FnOnce(T)>(answer: Result<T, Refusal>, write_values: F)
    requires { F.IsAlwaysCallable write_values }
{
    match answer {
        Ok(values) => write_values(values),
        Err(refusal) => write_refusal(refusal),
    }
}

// Loads a network into a fresh session, writes the answer, and gives the session after it.
fn load(n: u16, links: &[u16], root: u16, first: u16, last: u16) -> Session {
    let loaded = session::load_flat(Session::empty(), n, links, &[], root, first, last);
    write_answer(loaded.answer, |sizes| {
        write_form(b"opened", &[sizes.switches, sizes.links])
    });
    loaded.session
}

// Offers an ear, writes the answer, and gives the session after it.
fn offer(s: Session, ear: &[u16]) -> Session {
    let offered = session::ear(s, ear);
    write_answer(offered.answer, |count| write_form(b"new", &[count]));
    offered.session
}

// Writes how many ears of a list were accepted.
fn write_accepted(count: usize) {
    io::write_all(1, b"(accepted ");
    io::print_decimal(1, count as u64);
    io::write_all(1, b")\n");
}

// Offers a list of ears, writes how many were accepted and the refusal of the next, if any, and gives the session after it.
fn offer_list(s: Session, list: &[u16]) -> Session {
    let listed = session::ears(s, list);
    match listed.answer {
        Ok(count) => write_accepted(count),
        Err(stopped) => {
            write_accepted(stopped.accepted);
            write_refusal(stopped.refusal);
        }
    }
    listed.session
}

// Closes, writes the answer, and gives the session after it.
fn close(s: Session) -> Session {
    let closing = session::close(s);
    write_answer(closing.answer, |_| {
        io::write_all(1, b"(closed)\n");
    });
    closing.session
}

// Brings the session over, writes the answer, and gives the session after it.
fn bring_over(s: Session) -> Session {
    let bringing = session::bring_over(s);
    write_answer(bringing.answer, |_| {
        io::write_all(1, b"(brought over)\n");
    });
    bringing.session
}

// Writes what parent answers.
fn parent(s: Session, switch: u16, tree: u16) {
    let answer = session::parent(s, switch, tree);
    write_answer(
        answer,
        |entry| write_form(b"parent", &[switch, tree, entry]),
    );
}

// Writes what walk answers, and the walk out of the slice.
fn walk(s: Session, switch: u16, tree: u16, out: &mut [u16]) {
    let answer = session::walk(s, switch, tree, out);
    write_answer(answer, |count| {
        write_form_and_list(
            b"walk",
            &[switch, tree],
            rows::prefix(out, usize::from(count)),
        )
    });
}

// The three walks of a switch, and its three entries.
fn routes(s: Session, switch: u16) {
    let mut out = [0u16; 6];
    for tree in 1..4 {
        walk(s, switch, tree, &mut out);
    }
    for tree in 1..4 {
        parent(s, switch, tree);
    }
}

// Writes what zones of card k answers, and the zone of each switch out of the slice.
fn zones(s: Session, n1: u16, n2: u16, n3: u16) {
    let mut out = [0u16; 6];
    let answer = zoning::zones(s, n1, n2, n3, &mut out);
    write_answer(answer, |_| {
        write_form_and_list(b"zones", &[n1, n2, n3], &out)
    });
}

// The worked example.
fn worked_example() {
    let links: [u16; 12] = [0, 1, 0, 2, 0, 3, 1, 2, 1, 3, 2, 3];
    let mut out = [0u16; 4];
    let mut s = load(4, &links, 0, 1, 3);
    s = offer(s, &[0, 2, 1]);
    s = offer(s, &[2, 3, 1]);
    s = close(s);
    s = offer(s, &[0, 3]);
    s = close(s);
    walk(s, 2, 3, &mut out);
}

// On the first network: card i, and the walks and entries that are refused.
fn first_network() {
    let links: [u16; 12] = [0, 1, 0, 2, 0, 3, 1, 2, 1, 3, 2, 3];
    load(3, &links, 0, 1, 2);
    load(1025, &links, 0, 1, 3);
    load(1024, &links, 0, 1, 3);
    let mut out = [0u16; 2];
    let mut s = load(4, &links, 0, 1, 3);
    walk(Session::empty(), 3, 1, &mut out);
    walk(s, 3, 1, &mut out);
    s = offer(s, &[]);
    s = offer(s, &[0, 2, 1]);
    s = offer(s, &[2, 3, 1]);
    s = offer(s, &[0, 3]);
    s = close(s);
    routes(s, 3);
    routes(s, 0);
    walk(s, 4, 1, &mut out);
    walk(s, 2, 4, &mut out);
    walk(s, 2, 257, &mut out);
    walk(s, 2, 3, &mut out);
    parent(s, 4, 1);
    parent(s, 2, 0);
}

// On the network of card k: card l, the walks of 3, and zones: between two ears, through the first ear, and sizes that are refused.
fn second_network() {
    let links: [u16; 20] = [0, 1, 0, 2, 1, 2, 1, 3, 2, 3, 3, 4, 3, 5, 4, 5, 0, 4, 0, 5];
    let mut s = load(6, &links, 0, 1, 5);
    s = offer(s, &[0, 2, 1]);
    s = offer(s, &[2, 3, 1]);
    s = offer(s, &[3, 4, 0]);
    s = offer(s, &[3, 5, 4]);
    s = offer(s, &[0, 5]);
    s = close(s);
    routes(s, 5);
    routes(s, 3);
    zones(s, 2, 2, 2);
    zones(s, 1, 1, 4);
    zones(s, 3, 3, 0);
    zones(s, 65535, 1, 6);
}

// On the network of card k as it was closed before document 02, Note 6, when switch 3 had 4 in tree 3: its third walk before it is brought over,
// and after. An empty and an open session are refused.
fn third_walks() {
    let links: [u16; 20] = [0, 1, 0, 2, 1, 2, 1, 3, 2, 3, 3, 4, 3, 5, 4, 5, 0, 4, 0, 5];
    let mut out = [0u16; 6];
    bring_over(Session::empty());
    let mut s = load(6, &links, 0, 1, 5);
    s = bring_over(s);
    s = offer_list(s, &[3, 0, 2, 1, 3, 2, 3, 1, 3, 3, 4, 0, 3, 3, 5, 4, 0]);
    s = close(s);
    s.tree3[3] = 4;
    walk(s, 3, 3, &mut out);
    s = bring_over(s);
    walk(s, 3, 3, &mut out);
}

// Lists of ears on the first network: one that ends at a refused ear, one that ends at a count past its end, and an empty ear, which takes
// the link that is left; and no ears, before and after.
fn whole_lists() {
    let links: [u16; 12] = [0, 1, 0, 2, 0, 3, 1, 2, 1, 3, 2, 3];
    offer_list(Session::empty(), &[]);
    let mut s = load(4, &links, 0, 1, 3);
    s = offer_list(s, &[3, 0, 2, 1, 3, 2, 3, 0, 2, 0, 3]);
    s = offer_list(s, &[3, 2, 3, 1, 3, 0, 3]);
    s = offer_list(s, &[0]);
    s = close(s);
    s = offer_list(s, &[]);
    offer_list(s, &[2, 0, 3]);
}

fn main() {
    worked_example();
    first_network();
    second_network();
    third_walks();
    whole_lists();
}
