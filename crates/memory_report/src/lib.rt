// The report of document 02, Note 7, over the memory of struct threeways_report and struct threeways_session (include/threeways.h).
// Begun empty, it adds the session that the memory means, for any contents of both; rows of other lengths are refused with 255.
#![tactic(auto)]

ghost use Rattle.std.specs.Prelude.{◌≡◌};
ghost use Rattle.memory.specs.Memory.{numbers_by, memory_by};
ghost use Rattle.report.specs.Report.{report_of};
ghost use Rattle.memory_report.specs.Report.{wrong_rows, Begins, Adds};

use memory::{MARKS, ROW, Refusal};

// The length of a row by duct.
pub const DUCTS: usize = 256;

// Rows by duct of other lengths than the struct's.
#[tactic(auto, unfolding(crate::specs::Report::wrong_rows))]
fn wrong_rows(two: usize, three: usize) -> bool
    ensures { result ≡ wrong_rows two three }
{
    two != DUCTS || three != DUCTS
}

// Begins a report empty.
pub fn begin(sessions: &mut u16, two: &mut [u32], three: &mut [u32]) -> Refusal
    ensures { Begins (report_of sessions.old two.old three.old) result
        (report_of sessions.new two.new three.new) }
{
    if wrong_rows(two.len(), three.len()) {
        return memory::WRONG_LENGTHS;
    }
    *sessions = 0;
    two.fill(0);
    three.fill(0);
    memory::DONE
}

// Adds a closed session to a report: 19 on an empty session, 21 on an open one, then 25 for a 65,536th.
pub fn add(
    sessions: &mut u16,
    two: &mut [u32],
    three: &mut [u32],
    stage: u16,
    n: u16,
    m: u16,
    root: u16,
    first: u16,
    last: u16,
    longs: u16,
    born: u16,
    links: &[u16],
    ducts: &[u8],
    tree1: &[u16],
    tree2: &[u16],
    tree3: &[u16],
) -> Refusal
    ensures { Adds (report_of sessions.old two.old three.old)
        (λ used births order. memory_by (numbers_by stage n m root first last longs born)
        links.now ducts.now used births order tree1.now tree2.now tree3.now)
        result (report_of sessions.new two.new three.new) }
{
    if wrong_rows(two.len(), three.len())
        || memory::wrong_lengths(
            links.len(),
            ducts.len(),
            MARKS,
            ROW,
            ROW,
            tree1.len(),
            tree2.len(),
            tree3.len(),
        )
    {
        return memory::WRONG_LENGTHS;
    }
    let st = memory::state_of(stage, n, m, root, first, last, longs, born);
    let answer = report::add_in(*sessions, two, three, st, links, ducts, tree1, tree2, tree3);
    match answer {
        Err(refusal) => Refusal::from(refusal),
        Ok(count) => {
            *sessions = count;
            memory::DONE
        }
    }
}
