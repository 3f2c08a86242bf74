// The zones of document 02, Note 4, on lent slices: the ear at which the order is cut, and the zones by switch number.
// The order is a slice that holds nothing else; births are those of all switches, by number.
#![tactic(auto)]

ghost use Rattle.std.specs.Prelude.{◌≡◌, ◌≤◌, length, replicate};
ghost use Rattle.mondschein.specs.Network.{at};
ghost use Rattle.rows.specs.Rows.{assigned};
ghost use Rattle.zones.specs.Cut.{birth_in, zones_by};
ghost use Rattle.cutting.specs.Cutting.{Counted, found_in, cut_of, past_older, past_new, zone_older, zone_new, past, placed, zone_by};

use network::MAX_SWITCHES;

// The numbers that a birth may have: those of long ears, from 1, and 0 for none.
const BIRTHS: usize = (MAX_SWITCHES as usize) + 1;

// An ear, how many switches are born before it, and how many in it.
#[derive(Clone, Copy)]
struct Found {
    ear: u16,
    before: usize,
    new: usize,
}

// The cut of the order: the ear, the size of zone 1, how many of the ear's switches zones 1 and 2 take, and how many are left for zone 3.
#[derive(Clone, Copy)]
struct Cut {
    ear: u16,
    one: usize,
    taken: usize,
    left: usize,
}

// Along the order: how many older switches are passed, and how many of the ear's; how many older switches zone 1 has, and how many of the
// ear's. The shares are known from the first switch of the ear on; until then zone 1 has older switches up to its size.
#[derive(Clone, Copy)]
struct Passed {
    older: usize,
    new: usize,
    old: usize,
    share: usize,
}

// Counts how many switches have each birth.
fn count_births(births: &[u16], counts: &mut [u16])
    requires { (length births.now ≤ 1024) × (counts.old ≡ replicate 1025 0) }
    ensures { Counted births.now (length births.now) counts.new }
{
    for birth in births {
        rows::store(counts, *birth, rows::entry(counts, *birth) + 1);
    }
}

// The first ear after which more than `total` switches are born.
fn find_ear(births: &[u16], total: usize) -> Found
    requires { length births.now ≤ 1024 }
    ensures { result ≡ found_in births.now total }
{
    let mut counts = [0u16; BIRTHS];
    count_births(births, &mut counts);
    let mut before = 0;
    for i in 0..births.len() {
        let new = counts[i] as usize;
        if total < before + new {
            return Found {
                ear: i as u16,
                before,
                new,
            };
        }
        before += new;
    }
    Found {
        ear: births.len() as u16,
        before,
        new: counts[births.len()] as usize,
    }
}

// Where the order is cut for zones 1 and 2 of n1 and n2 switches.
fn find_cut(births: &[u16], n1: u16, n2: u16) -> Cut
    requires { length births.now ≤ 1024 }
    ensures { result ≡ cut_of births.now n1 n2 }
{
    let one = n1 as usize;
    let total = one + (n2 as usize);
    let found = find_ear(births, total);
    let taken = total.saturating_sub(found.before);
    Cut {
        ear: found.ear,
        one,
        taken,
        left: found.new.saturating_sub(taken),
    }
}

// One more older switch is passed.
#[tactic(auto, unfolding(crate::specs::Cutting::past_older))]
fn pass_older(p: Passed) -> Passed
    requires { p.older ≤ 1024 }
    ensures { result ≡ past_older p }
{
    Passed {
        older: p.older + 1,
        ..p
    }
}

// One more switch of the ear is passed; at the first one zone 1 takes what the older ones ahead do not give it.
#[tactic(auto, unfolding(crate::specs::Cutting::past_new))]
fn pass_new(p: Passed, cut: Cut) -> Passed
    requires { p.new ≤ 1024 }
    ensures { result ≡ past_new p cut }
{
    if p.new == 0 {
        let share = cut.taken.min(cut.one.saturating_sub(p.older));
        return Passed {
            new: 1,
            old: cut.one - share,
            share,
            ..p
        };
    }
    Passed {
        new: p.new + 1,
        ..p
    }
}

// The zone of an older switch, where zone 1 has so many of them.
#[tactic(auto, unfolding(crate::specs::Cutting::zone_older))]
fn zone_older(older: usize, old: usize) -> u16
    ensures { result ≡ zone_older older old }
{
    if older < old { 1 } else { 2 }
}

// The zone of a switch of the ear, where zone 1 has `share` of them, and zone 3 those that are left.
#[tactic(auto, unfolding(crate::specs::Cutting::zone_new))]
fn zone_new(new: usize, share: usize, left: usize) -> u16
    ensures { result ≡ zone_new new share left }
{
    if new < share {
        1
    } else if new - share < left {
        3
    } else {
        2
    }
}

// Writes the zone of a switch that is born up to the ear, and passes it; a number that births do not hold is no switch.
fn place(out: &mut [u16], births: &[u16], switch: u16, p: Passed, cut: Cut) -> Passed
    requires { (p.older ≤ 1024) × (p.new ≤ 1024) × (length births.now ≤ length out.old) }
    ensures { (result ≡ past (birth_in births.now switch) p cut)
        × (out.new ≡ placed out.old switch (birth_in births.now switch) p cut) }
{
    let i = switch as usize;
    let Some(birth) = births.get(i) else {
        return p;
    };
    if *birth < cut.ear {
        out[i] = zone_older(p.older, p.old);
        return pass_older(p);
    }
    if *birth == cut.ear {
        let next = pass_new(p, cut);
        out[i] = zone_new(p.new, next.share, cut.left);
        return next;
    }
    p
}

// The zones by switch number along the order; zone 3 where nothing is written.
fn write_zones(out: &mut [u16], order: &[u16], births: &[u16], cut: Cut)
    requires { (length order.now ≤ 1024) × (length births.now ≤ length out.old) }
    ensures { out.new ≡ assigned (replicate (length out.old) 3) (at order.now)
        (zone_by order.now births.now cut) (length order.now) }
{
    out.fill(3);
    let mut p = Passed {
        older: 0,
        new: 0,
        old: cut.one,
        share: 0,
    };
    for switch in order {
        p = place(out, births, *switch, p, cut);
    }
}

// The zones by switch number, in all places of a slice; zones 1 and 2 have n1 and n2 switches.
pub fn set_zones(out: &mut [u16], order: &[u16], births: &[u16], n1: u16, n2: u16)
    requires { (length births.now ≤ 1024) × (length order.now ≤ 1024) × (length births.now ≤ length out.old) }
    ensures { out.new ≡ zones_by (length births.now) order.now (birth_in births.now) n1 n2 (length out.old) }
{
    let cut = find_cut(births, n1, n2);
    write_zones(out, order, births, cut);
}
