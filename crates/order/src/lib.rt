// The order of switches on a lent slice, with the insertion of an ear's new switches.
// The order is kept at the start of an array, with its count.
#![tactic(auto)]

ghost use Rattle.std.specs.Prelude.{◌≡◌, not, ◌&&◌, ◌++◌, reverse, min, ◌+◌, ◌-◌, ◌≤◌, eqb, ltb, length, take, drop};
ghost use Rattle.mondschein.specs.Network.{at};
ghost use Rattle.mondschein.specs.Order.{extend};
ghost use Rattle.order.specs.Placed.{placed, placed_count, place_in};

// Where the new switches of a later ear go in the order, and whether the ear is written from A to B: both are known of every ear, so the
// flag is no option.
#[derive(Clone, Copy)]
pub struct Place {
    pub at: usize,
    pub upward: bool,
}

// The place of a later ear in the order, by one search for both of its ends.
pub fn place_of(order: &[u16], born: u16, ear: &[u16]) -> Place
    requires { 1 ≤ length ear.now }
    ensures { result ≡ place_in (take born order.now) ear.now }
{
    let list = rows::prefix(order, born as usize);
    let last = ear[ear.len() - 1];
    match rows::position_of_either(list, ear[0], last) {
        Some(k) => Place {
            at: k + 1,
            upward: list[k] != last,
        },
        None => Place {
            at: list.len(),
            upward: false,
        },
    }
}

// Moves the numbers from index at up to count by c places, the last one first. Not by `copy_within`, which asks the firmware for memmove.
fn open_gap(order: &mut [u16], at: usize, count: usize, c: usize)
    requires { (at ≤ count) × (count + c ≤ length order.old) }
    ensures { order.new ≡ take (at + c) order.old ++ (take (count - at) (drop at order.old) ++ drop (count + c) order.old) }
{
    for k in (at..count).rev() {
        order[k + c] = order[k];
    }
}

// Writes the part from index at on, number by number: `copy_from_slice` asks the firmware for memmove here.
fn write_at(order: &mut [u16], at: usize, part: &[u16])
    requires { at + length part.now ≤ length order.old }
    ensures { order.new ≡ take at order.old ++ (part.now ++ drop (at + length part.now) order.old) }
{
    let len = part.len();
    for k in 0..len {
        order[at + k] = part[k];
    }
}

// Writes the part from index at on, its last number first.
fn write_reversed(order: &mut [u16], at: usize, part: &[u16])
    requires { at + length part.now ≤ length order.old }
    ensures { order.new ≡ take at order.old ++ (reverse part.now ++ drop (at + length part.now) order.old) }
{
    let len = part.len();
    for k in 0..len {
        order[at + k] = part[len - 1 - k];
    }
}

// The order after a first ear, in place, and its count: the ear stands as written, and without room nothing changes.
pub fn begin(order: &mut [u16], ear: &[u16]) -> u16
    requires { length order.old ≤ 1024 }
    ensures { (result ≡ placed_count ear.now order.old 0) × (order.new ≡ placed ear.now order.old) }
{
    let len = ear.len();
    if order.len() < len {
        return 0;
    }
    write_at(order, 0, ear);
    len as u16
}

// The order after a later ear, in place, and its count: without room nothing changes.
pub fn insert(order: &mut [u16], born: u16, ear: &[u16], place: Place) -> u16
    requires { (2 ≤ length ear.now) × (1 ≤ born) × (length order.old ≡ 1024) × (place ≡ place_in (take born order.old) ear.now) }
    ensures { (result ≡ placed_count (extend (take born order.old) ear.now) order.old born) × (order.new ≡ placed (extend (take born order.old) ear.now) order.old) }
{
    let len = ear.len();
    let count = (born as usize).min(order.len());
    let grown = count + (len - 2);
    if order.len() < grown {
        return born;
    }
    let at = place.at;
    let part = &ear[1..len - 1];
    open_gap(order, at, count, part.len());
    if place.upward {
        write_at(order, at, part);
    } else {
        write_reversed(order, at, part);
    }
    grown as u16
}

// The count of an order that an ear of two numbers leaves as it is.
pub fn same_count(order: &[u16], born: u16) -> u16
    requires { length order.now ≤ 1024 }
    ensures { result ≡ min born (length order.now) }
{
    (born as usize).min(order.len()) as u16
}
