// The report of document 02, Note 7: for each duct, how many switches other than the root lose exactly two walks, and how many all three, when
// all its links fail, over the closed sessions added one after another. It is a state apart from the session, which is only read.
#![tactic(auto)]

ghost use Rattle.std.specs.Prelude.{◌≡◌};
ghost use Rattle.report.specs.Report.{empty_report, reported_by, adding_outcome, AddsIn};

use in_place::{Session, State};
use refusals::Refusal;

// How many sessions are added, and by duct how many of their switches lose exactly two walks, and all three; nothing stands at duct 0.
// The two rows stay apart: they are the layout of the C interface's struct, and each is lent alone.
#[derive(Clone, Copy)]
pub struct Report {
    pub sessions: u16,
    pub two: [u32; 256],
    pub three: [u32; 256],
}

impl Report {
    // A report begun empty.
    pub fn empty() -> Self
        ensures { result ≡ empty_report }
    {
        Report {
            sessions: 0,
            two: [0u32; 256],
            three: [0u32; 256],
        }
    }
}

// What adding a session answers, how many are added now where it is granted, and the report after it.
#[derive(Clone, Copy)]
pub struct Adding {
    pub answer: Result<u16, Refusal>,
    pub report: Report,
}

// Adds a closed session to a report whose sums are lent, and to which so many are added already: 19 on an empty session, 21 on an open one,
// then 25 for a 65,536th. A refusal changes nothing.
pub fn add_in(
    sessions: u16,
    two: &mut [u32],
    three: &mut [u32],
    st: State,
    links: &[u16],
    ducts: &[u8],
    tree1: &[u16],
    tree2: &[u16],
    tree3: &[u16],
) -> Result<u16, Refusal>
    ensures { AddsIn sessions two.old three.old st links.now ducts.now tree1.now tree2.now tree3.now result two.new three.new }
{
    st.stage.require_closed()?;
    if sessions == 65535 {
        return Err(Refusal::ReportFull);
    }
    // N, and 1,024 where a session says more, which no calls leave.
    let switches = st.n.min(Session::MAX_SWITCHES);
    let table = in_place::stored(st.m, links);
    reporting::add_losses(
        switches, st.root, table, ducts, tree1, tree2, tree3, two, three,
    );
    Ok(sessions + 1)
}

// The same, of a report and a session by value.
pub fn add(mut r: Report, s: Session) -> Adding
    ensures { adding_outcome result ≡ reported_by r s }
{
    let links = s.links;
    let ducts = s.ducts;
    let tree1 = s.tree1;
    let tree2 = s.tree2;
    let tree3 = s.tree3;
    let answer = add_in(
        r.sessions,
        &mut r.two,
        &mut r.three,
        session::state_of(s),
        &links,
        &ducts,
        &tree1,
        &tree2,
        &tree3,
    );
    r.sessions = answer.unwrap_or(r.sessions);
    Adding { answer, report: r }
}
