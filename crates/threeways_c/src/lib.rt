// The calls of a session for C, over the numbers and the arrays of struct threeways_session (include/threeways.h), lent one by one.
// Each hands on what it is lent to the function of the same promise, for any contents of that memory, in a crate of its own.
#![tactic(auto)]

ghost use Rattle.network.specs.Load.{network_of};
ghost use Rattle.records.specs.Records.{ends_of, ducts_of};
ghost use Rattle.memory.specs.Memory.{numbers_by, memory_by};
ghost use Rattle.memory.specs.Calls.{Clears, Loads, Offers, Lists, Closes, BringsOver, Tells, WritesWalk, WritesZones};
ghost use Rattle.report.specs.Report.{report_of};
ghost use Rattle.memory_report.specs.Report.{Begins, Adds};
ghost use Rattle.memory_routes.specs.Routes.{WritesRoutes};

use memory::Refusal;
use memory_routes::Routed;
use records::Link;

// Clears the session: always succeeds.
#[unsafe(no_mangle)]
pub extern "C" fn threeways_clear_in(
    stage: &mut u16,
    n: &mut u16,
    m: &mut u16,
    root: &mut u16,
    first: &mut u16,
    last: &mut u16,
    longs: &mut u16,
    born: &mut u16,
    links: &mut [u16],
    ducts: &mut [u8],
    used: &mut [u8],
    births: &mut [u16],
    order: &mut [u16],
    tree1: &mut [u16],
    tree2: &mut [u16],
    tree3: &mut [u16],
) -> Refusal
    ensures { Clears
        (memory_by
        (numbers_by stage.old n.old m.old root.old
        first.old last.old longs.old born.old)
        links.old ducts.old used.old births.old order.old
        tree1.old tree2.old tree3.old)
        result
        (memory_by
        (numbers_by stage.new n.new m.new root.new
        first.new last.new longs.new born.new)
        links.new ducts.new used.new births.new order.new
        tree1.new tree2.new tree3.new) }
{
    memory_load::clear(
        stage, n, m, root, first, last, longs, born, links, ducts, used, births, order, tree1,
        tree2, tree3,
    )
}

// Loads a network into an empty session, its links lent as records: 20 on any other, then checks 1 to 6.
#[unsafe(no_mangle)]
pub extern "C" fn threeways_load_in(
    new_links: &[Link],
    stage: &mut u16,
    n: &mut u16,
    m: &mut u16,
    root: &mut u16,
    first: &mut u16,
    last: &mut u16,
    longs: &mut u16,
    born: &mut u16,
    links: &mut [u16],
    ducts: &mut [u8],
    used: &mut [u8],
    births: &mut [u16],
    order: &mut [u16],
    tree1: &mut [u16],
    tree2: &mut [u16],
    tree3: &mut [u16],
    new_n: u16,
    new_root: u16,
    new_first: u16,
    new_last: u16,
) -> Refusal
    ensures { Loads
        (memory_by
        (numbers_by stage.old n.old m.old root.old
        first.old last.old longs.old born.old)
        links.old ducts.old used.old births.old order.old
        tree1.old tree2.old tree3.old)
        (network_of new_n (ends_of new_links.now) new_root new_first new_last) (ducts_of new_links.now) result
        (memory_by
        (numbers_by stage.new n.new m.new root.new
        first.new last.new longs.new born.new)
        links.new ducts.new used.new births.new order.new
        tree1.new tree2.new tree3.new) }
{
    let flat = records::flatten(new_links);
    memory_load::load_flat(
        flat,
        new_links.len(),
        stage,
        n,
        m,
        root,
        first,
        last,
        longs,
        born,
        links,
        ducts,
        used,
        births,
        order,
        tree1,
        tree2,
        tree3,
        new_n,
        new_root,
        new_first,
        new_last,
    )
}

// Offers an ear to an open session: 19 on an empty one, 22 on a closed one, then checks 7 to 16. Writes the number of new switches.
#[unsafe(no_mangle)]
pub extern "C" fn threeways_ear_in(
    stage: u16,
    n: u16,
    m: u16,
    root: u16,
    first: u16,
    last: u16,
    longs: &mut u16,
    born: &mut u16,
    links: &[u16],
    used: &mut [u8],
    births: &mut [u16],
    order: &mut [u16],
    tree1: &mut [u16],
    tree2: &mut [u16],
    ear: &[u16],
    count: &mut u16,
) -> Refusal
    ensures { Offers
        (λ ducts tree3. memory_by (numbers_by stage n m root first last longs.old born.old)
        links.now ducts used.old births.old order.old tree1.old tree2.old tree3)
        ear.now count.old result
        (λ ducts tree3. memory_by (numbers_by stage n m root first last longs.new born.new)
        links.now ducts used.new births.new order.new tree1.new tree2.new tree3)
        count.new }
{
    memory_ears::ear(
        stage, n, m, root, first, last, longs, born, links, used, births, order, tree1, tree2, ear,
        count,
    )
}

// Offers a list of ears, each preceded by its count of numbers: one after another, up to the first refusal, which it gives back. Writes the
// count of ears accepted; they stay.
#[unsafe(no_mangle)]
pub extern "C" fn threeways_ears_in(
    stage: u16,
    n: u16,
    m: u16,
    root: u16,
    first: u16,
    last: u16,
    longs: &mut u16,
    born: &mut u16,
    links: &[u16],
    used: &mut [u8],
    births: &mut [u16],
    order: &mut [u16],
    tree1: &mut [u16],
    tree2: &mut [u16],
    list: &[u16],
    accepted: &mut usize,
) -> Refusal
    ensures { Lists
        (λ ducts tree3. memory_by (numbers_by stage n m root first last longs.old born.old)
        links.now ducts used.old births.old order.old tree1.old tree2.old tree3)
        list.now accepted.old result
        (λ ducts tree3. memory_by (numbers_by stage n m root first last longs.new born.new)
        links.now ducts used.new births.new order.new tree1.new tree2.new tree3)
        accepted.new }
{
    memory_ears::ears(
        stage, n, m, root, first, last, longs, born, links, used, births, order, tree1, tree2,
        list, accepted,
    )
}

// Closes an open session: 19 on an empty one, 22 on a closed one, then check 23.
#[unsafe(no_mangle)]
pub extern "C" fn threeways_close_in(
    stage: &mut u16,
    n: u16,
    m: u16,
    root: u16,
    first: u16,
    last: u16,
    longs: u16,
    born: u16,
    links: &[u16],
    used: &[u8],
    births: &[u16],
    tree3: &mut [u16],
) -> Refusal
    ensures { Closes
        (λ ducts order tree1 tree2. memory_by (numbers_by stage.old n m root first last longs born)
        links.now ducts used.now births.now order tree1 tree2 tree3.old)
        result
        (λ ducts order tree1 tree2. memory_by (numbers_by stage.new n m root first last longs born)
        links.now ducts used.now births.now order tree1 tree2 tree3.new) }
{
    memory_close::close(
        stage, n, m, root, first, last, longs, born, links, used, births, tree3,
    )
}

// Brings a closed session over: tree 3 as close sets it today. 19 on an empty session, 21 on an open one.
#[unsafe(no_mangle)]
pub extern "C" fn threeways_bring_over_in(
    stage: u16,
    n: u16,
    m: u16,
    root: u16,
    first: u16,
    last: u16,
    longs: u16,
    born: u16,
    links: &[u16],
    births: &[u16],
    tree3: &mut [u16],
) -> Refusal
    ensures { BringsOver
        (λ ducts used order tree1 tree2. memory_by (numbers_by stage n m root first last longs born)
        links.now ducts used births.now order tree1 tree2 tree3.old)
        result
        (λ ducts used order tree1 tree2. memory_by (numbers_by stage n m root first last longs born)
        links.now ducts used births.now order tree1 tree2 tree3.new) }
{
    memory_close::bring_over(
        stage, n, m, root, first, last, longs, born, links, births, tree3,
    )
}

// Writes the entry of a switch in the table of a tree, 1 to 3: 19 on an empty session, 21 on an open one, then check 17.
#[unsafe(no_mangle)]
pub extern "C" fn threeways_parent_in(
    stage: u16,
    n: u16,
    m: u16,
    root: u16,
    first: u16,
    last: u16,
    longs: u16,
    born: u16,
    tree1: &[u16],
    tree2: &[u16],
    tree3: &[u16],
    switch: u16,
    tree: u16,
    out: &mut u16,
) -> Refusal
    ensures { Tells
        (λ links ducts used births order. memory_by (numbers_by stage n m root first last longs born)
        links ducts used births order tree1.now tree2.now tree3.now)
        switch tree out.old result out.new }
{
    memory_reads::parent(
        stage, n, m, root, first, last, longs, born, tree1, tree2, tree3, switch, tree, out,
    )
}

// Writes the walk of a switch in a tree, 1 to 3, at the start of the slice, and its count of switches: 19 on an empty session, 21 on an
// open one, then checks 17 and 18.
#[unsafe(no_mangle)]
pub extern "C" fn threeways_walk_in(
    stage: u16,
    n: u16,
    m: u16,
    root: u16,
    first: u16,
    last: u16,
    longs: u16,
    born: u16,
    tree1: &[u16],
    tree2: &[u16],
    tree3: &[u16],
    switch: u16,
    tree: u16,
    out: &mut [u16],
    count: &mut u16,
) -> Refusal
    ensures { WritesWalk
        (λ links ducts used births order. memory_by (numbers_by stage n m root first last longs born)
        links ducts used births order tree1.now tree2.now tree3.now)
        switch tree out.old count.old result out.new count.new }
{
    memory_reads::walk(
        stage, n, m, root, first, last, longs, born, tree1, tree2, tree3, switch, tree, out, count,
    )
}

// Writes the zone of each switch into the first N places of the slice, zones 1, 2 and 3 of the sizes wanted: 19 on an empty session, 21 on an
// open one, then checks 24 and 18.
#[unsafe(no_mangle)]
pub extern "C" fn threeways_zones_in(
    stage: u16,
    n: u16,
    m: u16,
    root: u16,
    first: u16,
    last: u16,
    longs: u16,
    born: u16,
    births: &[u16],
    order: &[u16],
    size1: u16,
    size2: u16,
    size3: u16,
    out: &mut [u16],
) -> Refusal
    ensures { WritesZones
        (λ links ducts used tree1 tree2 tree3. memory_by (numbers_by stage n m root first last longs born)
        links ducts used births.now order.now tree1 tree2 tree3)
        size1 size2 size3 out.old result out.new }
{
    memory_reads::zones(
        stage, n, m, root, first, last, longs, born, births, order, size1, size2, size3, out,
    )
}

// Writes three walks between two switches of a session that has a network, open or closed, one after another at the start of the slice, and
// tells their counts; or tells at most two things whose loss parts the two: 19 on an empty session, then checks 26 and 18.
#[unsafe(no_mangle)]
pub extern "C" fn threeways_routes_in(
    stage: u16,
    n: u16,
    m: u16,
    root: u16,
    first: u16,
    last: u16,
    longs: u16,
    born: u16,
    links: &[u16],
    from: u16,
    to: u16,
    out: &mut [u16],
) -> Routed
    ensures { WritesRoutes
        (λ ducts used births order tree1 tree2 tree3. memory_by (numbers_by stage n m root first last longs born)
        links.now ducts used births order tree1 tree2 tree3)
        from to out.old result out.new }
{
    memory_routes::routes(
        stage, n, m, root, first, last, longs, born, links, from, to, out,
    )
}

// Begins a report empty, over the number and the rows of struct threeways_report: always succeeds.
#[unsafe(no_mangle)]
pub extern "C" fn threeways_report_begin_in(
    sessions: &mut u16,
    two: &mut [u32],
    three: &mut [u32],
) -> Refusal
    ensures { Begins (report_of sessions.old two.old three.old) result
        (report_of sessions.new two.new three.new) }
{
    memory_report::begin(sessions, two, three)
}

// Adds a closed session to a report: 19 on an empty session, 21 on an open one, then 25 for a 65,536th.
#[unsafe(no_mangle)]
pub extern "C" fn threeways_report_add_in(
    sessions: &mut u16,
    two: &mut [u32],
    three: &mut [u32],
    stage: u16,
    n: u16,
    m: u16,
    root: u16,
    first: u16,
    last: u16,
    longs: u16,
    born: u16,
    links: &[u16],
    ducts: &[u8],
    tree1: &[u16],
    tree2: &[u16],
    tree3: &[u16],
) -> Refusal
    ensures { Adds (report_of sessions.old two.old three.old)
        (λ used births order. memory_by (numbers_by stage n m root first last longs born)
        links.now ducts.now used births order tree1.now tree2.now tree3.now)
        result (report_of sessions.new two.new three.new) }
{
    memory_report::add(
        sessions, two, three, stage, n, m, root, first, last, longs, born, links, ducts, tree1,
        tree2, tree3,
    )
}
