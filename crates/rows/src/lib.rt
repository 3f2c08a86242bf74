// Rows of numbers on lent slices: entries, marks, positions.
// A number past the end of a row reads as 0, and a store past it changes nothing.
#![tactic(auto)]

ghost use Rattle.std.specs.Prelude.{◌≡◌, ◌<◌, min, length, set, slice_index_or, take, unwrap_or, IfSome};
ghost use Rattle.mondschein.specs.Network.{at};
ghost use Rattle.mondschein.specs.Order.{position};

// `entry` and `store` are no generic functions of the index: their callers index by a switch's number, a u16.
// The entry of switch v in a row, and 0 past the end.
pub fn entry(row: &[u16], v: u16) -> u16
    ensures { result ≡ at row.now v }
{
    entry_at(row, v as usize, 0)
}

// Stores the entry of switch v, and nothing past the end.
pub fn store(row: &mut [u16], v: u16, entry: u16)
    ensures { row.new ≡ set row.old v entry }
{
    store_at(row, v as usize, entry);
}

// The mark at i, and 0 past the end.
pub fn mark_at(marks: &[u8], i: usize) -> u8
    ensures { result ≡ at marks.now i }
{
    entry_at(marks, i, 0)
}

// Marks link l, and nothing past the end.
pub fn mark(used: &mut [u8], l: usize)
    ensures { used.new ≡ set used.old l 1 }
{
    store_at(used, l, 1);
}

// The index of the first number of the list that is a or b.
pub fn position_of_either(list: &[u16], a: u16, b: u16) -> Option<usize>
    ensures lowest { unwrap_or result (length list.now) ≡ min (position list.now a) (position list.now b) }
    ensures within { IfSome result (λ i. i < length list.now) }
{
    list.iter().position(|x| *x == a || *x == b)
}

// The entry at i, or another past the end.
pub fn entry_at<T: Copy>(row: &[T], i: usize, other: T) -> T
    ensures { result ≡ slice_index_or row.now i other }
{
    row.get(i).copied().unwrap_or(other)
}

// Stores the entry at i, and nothing past the end.
pub fn store_at<T: Copy>(row: &mut [T], i: usize, x: T)
    ensures { row.new ≡ set row.old i x }
{
    if i < row.len() {
        row[i] = x;
    }
}

// The first numbers of a list: so many, and no more than there are.
pub fn prefix<T: Copy>(list: &[T], count: usize) -> &[T]
    ensures { result.now ≡ take count list.now }
{
    &list[..count.min(list.len())]
}
