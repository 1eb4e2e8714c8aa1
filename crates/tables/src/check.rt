// The numbers 13, 14 and 16 of a table, the first of 13 to 16, and 31 of its slices. Each is a pass of its own and writes nothing.
// Where a function reads some of a table's slices alone it takes these and no more. A count stands beside slices that aren't cut to it: definitions speak of the
// places below a count, and of a cut slice each proof would first show that these places are the same.
ghost use Rattle.std.specs.Prelude.{◌≡◌, ◌+◌, ◌*◌, ◌≤◌, ◌<◌, ◌^◌, min, length, ltb, nat_abs};
ghost use Rattle.laws.specs.Sum.{total};
ghost use Rattle.laws.specs.Lists.{elem, elem_z};
ghost use Rattle.laws.specs.Refusal.{short};
ghost use Rattle.refusal.specs.Number.{numbered};
ghost use Rattle.limits.specs.Limits.{most_wagons, most_entries, most_magnitude, most_signs, most_sign_entries, most_sign_magnitude};
ghost use Rattle.tables.specs.Lent.{LentWithin, lent_table, costs_of};
ghost use Rattle.tables.specs.Check.{bad_size, bad_signs, signs_number, before, bad_entry, bad_order, placed_number, hall_number, table_number, short_table, short_hall};

use crate::lent::{LentHall, LentTable};
use crate::mirror::unmirrored;
use limits::{
    MOST_ENTRIES, MOST_MAGNITUDE, MOST_SIGN_ENTRIES, MOST_SIGN_MAGNITUDE, MOST_SIGNS, MOST_WAGONS,
};
use refusal::Refusal;

// 13: a size or an entry count out of its limits.
#[tactic(auto, unfolding(crate::specs::Check::bad_size, laws::specs::Refusal::any_of))]
pub fn bad_size(least: usize, most: usize, capacity: usize, size: usize, count: usize) -> bool
    ensures { result ≡ bad_size least most capacity size count }
{
    size < least || most < size || capacity < count
}

// 13 of m alone.
#[tactic(auto, unfolding(crate::specs::Check::bad_signs, laws::specs::Refusal::any_of))]
pub fn bad_signs(m: usize) -> bool
    ensures { result ≡ bad_signs m }
{
    m < 1 || MOST_SIGNS < m
}

// The number of a call on signs alone, of which `short` says whether a slice is: 31, else 13 of m. A flag, since the slices are the caller's.
#[tactic(auto, unfolding(laws::specs::Refusal::first, laws::specs::Refusal::or_else))]
pub fn signs_number(short: bool, m: usize) -> Result<(), Refusal>
    ensures { numbered result ≡ signs_number short m }
{
    if short {
        return Err(Refusal::Slice);
    }
    if bad_signs(m) {
        return Err(Refusal::Size);
    }
    Ok(())
}

// Whether (i, j) stands before (k, l).
#[tactic(auto, unfolding(crate::specs::Check::before))]
fn before(i: u16, j: u16, k: u16, l: u16) -> bool
    ensures { result ≡ before i j k l }
{
    (i, j) < (k, l)
}

// Entry k is out of range, or not after the entry before.
#[tactic(auto, unfolding(crate::specs::Check::bad_entry, laws::specs::Refusal::any_of))]
fn bad_entry(size: usize, rows: &[u16], cols: &[u16], k: usize) -> bool
    requires { (k < length rows.now) × (k < length cols.now) }
    ensures { result ≡ bad_entry size (elem rows.now) (elem cols.now) k }
{
    size <= usize::from(rows[k])
        || size <= usize::from(cols[k])
        || 0 < k && !before(rows[k - 1], cols[k - 1], rows[k], cols[k])
}

// 14: an entry out of range or order.
pub fn bad_order(size: usize, count: usize, rows: &[u16], cols: &[u16]) -> bool
    requires { (count ≤ length rows.now) × (count ≤ length cols.now) }
    ensures { result ≡ bad_order size (elem rows.now) (elem cols.now) count }
{
    (0..count).any(|k| bad_entry(size, rows, cols, k))
}

// The sum of the absolute values of the first numbers, or the cap if that is less.
pub fn magnitudes_capped(cap: u64, count: usize, values: &[i64]) -> u64
    requires { (count ≤ length values.now) × (cap ≤ 2 ^ 62) }
    ensures { result ≡ min (total count (λ k. nat_abs (elem_z values.now k))) cap }
{
    (0..count).fold(0, |sum: u64, k| (sum + values[k].unsigned_abs()).min(cap))
}

// 16 for (H, c): its magnitude is above the limit.
pub fn hall_too_large(limit: u64, n: usize, count: usize, values: &[i64], c: &[i64]) -> bool
    requires { (count ≤ length values.now) × (n ≤ length c.now) × (limit < 2 ^ 60) }
    ensures { result ≡ ltb limit (total count (λ k. nat_abs (elem_z values.now k)) + 2 * total n (λ i. nat_abs (elem_z c.now i))) }
{
    let entries = magnitudes_capped(limit + 1, count, values);
    let costs = magnitudes_capped(limit + 1, n, c);
    limit < entries + 2 * costs
}

// 16 for a sign table: the same with no linear costs.
#[tactic(auto, unfolding(laws::specs::Sum::total))]
pub fn too_large(limit: u64, count: usize, values: &[i64]) -> bool
    requires { (count ≤ length values.now) × (limit < 2 ^ 60) }
    ensures { result ≡ ltb limit (total count (λ k. nat_abs (elem_z values.now k))) }
{
    hall_too_large(limit, 0, count, values, &[])
}

// The first of 13 to 15 of a table, on which 16 rests.
#[tactic(auto, unfolding(crate::specs::Check::placed_number, laws::specs::Refusal::first, laws::specs::Refusal::or_else))]
fn placed_number(
    least: usize,
    most: usize,
    capacity: usize,
    table: LentTable,
) -> Result<(), Refusal>
    requires { LentWithin capacity table × (most ≤ 65536) }
    ensures { numbered result ≡ placed_number least most capacity table.entry.size (lent_table table.entry) }
{
    if bad_size(least, most, capacity, table.size, table.count) {
        return Err(Refusal::Size);
    }
    if bad_order(table.size, table.count, table.rows, table.cols) {
        return Err(Refusal::Entry);
    }
    if unmirrored(table.entries()) {
        return Err(Refusal::Mirror);
    }
    Ok(())
}

// The first number of (H, c), within limits that the caller names. This and `table_number_within` stay beside those of 01's limits, since they promise of any
// limits; and they are two, since of (H, c) another least size is asked, and 16 has the costs in it.
// `most, capacity, limit` stay three numbers: these two alone take all three, and the definitions that they cite take them so.
#[tactic(auto, unfolding(crate::specs::Check::placed_number, crate::specs::Check::hall_number, laws::specs::Refusal::first, laws::specs::Refusal::or_else))]
pub fn hall_number_within(
    most: usize,
    capacity: usize,
    limit: u64,
    hall: LentHall,
) -> Result<(), Refusal>
    requires { LentWithin capacity hall.table × (hall.table.size ≤ most → hall.table.size ≤ length hall.c.now) × (most ≤ 65536) × (limit < 2 ^ 60) }
    ensures { numbered result ≡ hall_number most capacity limit hall.entry.table.size (lent_table hall.entry.table) (elem_z hall.entry.c.now) }
{
    let table = hall.table;
    placed_number(0, most, capacity, table)?;
    if hall_too_large(limit, table.size, table.count, table.values, hall.c) {
        return Err(Refusal::Magnitude);
    }
    Ok(())
}

// The first number of (H, c).
pub fn hall_number(hall: LentHall) -> Result<(), Refusal>
    requires { LentWithin most_entries hall.table × (hall.table.size ≤ most_wagons → hall.table.size ≤ length hall.c.now) }
    ensures { numbered result ≡ hall_number most_wagons most_entries most_magnitude hall.entry.table.size (lent_table hall.entry.table) (elem_z hall.entry.c.now) }
{
    hall_number_within(MOST_WAGONS, MOST_ENTRIES, MOST_MAGNITUDE, hall)
}

// The first number of a sign table given directly, within limits that the caller names.
#[tactic(auto, unfolding(crate::specs::Check::placed_number, crate::specs::Check::table_number, laws::specs::Refusal::first, laws::specs::Refusal::or_else))]
pub fn table_number_within(
    most: usize,
    capacity: usize,
    limit: u64,
    table: LentTable,
) -> Result<(), Refusal>
    requires { LentWithin capacity table × (most ≤ 65536) × (limit < 2 ^ 60) }
    ensures { numbered result ≡ table_number most capacity limit table.entry.size (lent_table table.entry) }
{
    placed_number(1, most, capacity, table)?;
    if too_large(limit, table.count, table.values) {
        return Err(Refusal::Magnitude);
    }
    Ok(())
}

// The first number of a sign table given directly.
pub fn table_number(table: LentTable) -> Result<(), Refusal>
    requires { LentWithin most_sign_entries table }
    ensures { numbered result ≡ table_number most_signs most_sign_entries most_sign_magnitude table.entry.size (lent_table table.entry) }
{
    table_number_within(MOST_SIGNS, MOST_SIGN_ENTRIES, MOST_SIGN_MAGNITUDE, table)
}

// 31: a lent slice is shorter than needed, where what is needed rests on no refused number.
// `refused` stays beside `needed`, no `Option`: the definition `short` has the same two, and the callers have both as they are.
#[tactic(auto, unfolding(laws::specs::Refusal::short))]
pub fn too_short(refused: bool, needed: usize, lent: usize) -> bool
    ensures { result ≡ short refused needed lent }
{
    !refused && lent < needed
}

// 31 for the slices of a table.
#[tactic(auto, unfolding(crate::specs::Check::short_table, laws::specs::Refusal::any_of))]
pub fn short_table(capacity: usize, table: LentTable) -> bool
    ensures { result ≡ short_table capacity table.entry.count (length table.entry.rows.now) (length table.entry.cols.now) (length table.entry.values.now) }
{
    let refused = capacity < table.count;
    too_short(refused, table.count, table.rows.len())
        || too_short(refused, table.count, table.cols.len())
        || too_short(refused, table.count, table.values.len())
}

// 31 for the slices of (H, c).
#[tactic(auto, unfolding(crate::specs::Check::short_hall, laws::specs::Refusal::any_of))]
pub fn short_hall(hall: LentHall) -> bool
    ensures { result ≡ short_hall (costs_of hall.entry) }
{
    let n = hall.table.size;
    short_table(MOST_ENTRIES, hall.table) || too_short(MOST_WAGONS < n, n, hall.c.len())
}
