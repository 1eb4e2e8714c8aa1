// What is refused of a ranged table, the first of: 13, 14, 23 of an entry, 15, 23 of a c, 16. Each is a pass of its own and writes nothing. A count stays beside
// the slices, uncut: the definitions speak of the first entries of a list, and each cut would be proved where it is made, eight times, and not here.
ghost use Rattle.std.specs.Prelude.{◌≡◌, ◌||◌, ◌+◌, ◌*◌, ◌≤◌, ◌<◌, ◌^◌, min, length, ltb};
ghost use Rattle.laws.specs.Sum.{total};
ghost use Rattle.laws.specs.Lists.{elem, elem_z};
ghost use Rattle.limits.specs.Limits.{most_wagons, most_entries};
ghost use Rattle.refusal.specs.Number.{numbered};
ghost use Rattle.tables.specs.Table.{Lent};
ghost use Rattle.tables.specs.Check.{Placed, unmirrored};
ghost use Rattle.tables.specs.CostTable.{quadratic};
ghost use Rattle.ranged_finish.specs.Ranged.{ranged_of, low_of, high_of};
ghost use Rattle.ranged_finish.specs.Numbers.{above, larger, ranged_magnitude, ranged_number};

use crate::LentRanged;
use limits::{MOST_ENTRIES, MOST_MAGNITUDE, MOST_WAGONS};
use refusal::Refusal;
use tables::check::{bad_order, bad_size};
use tables::mirror::unmirrored;

// 23: some low end is above its high one.
fn above(count: usize, low: &[i64], high: &[i64]) -> bool
    requires { (count ≤ length low.now) × (count ≤ length high.now) }
    ensures { result ≡ above count (elem_z low.now) (elem_z high.now) }
{
    low[..count]
        .iter()
        .zip(&high[..count])
        .any(|(low, high)| high < low)
}

// The larger absolute value.
fn larger(a: i64, b: i64) -> u64
    ensures { (result ≡ larger a b) × (result ≤ 2 ^ 63) }
{
    a.unsigned_abs().max(b.unsigned_abs())
}

// A sum with the larger absolute value of one more range, or the cap if that is less.
fn with_range(sum: u64, low: i64, high: i64, cap: u64) -> u64
    requires { sum ≤ 2 ^ 62 }
    ensures { result ≡ min (sum + larger low high) cap }
{
    (sum + larger(low, high)).min(cap)
}

// The sum of the larger absolute values of the first ranges, or the cap if that is less.
fn ranges_capped(cap: u64, count: usize, low: &[i64], high: &[i64]) -> u64
    requires { (count ≤ length low.now) × (count ≤ length high.now) × (cap ≤ 2 ^ 62) }
    ensures { result ≡ min (total count (λ k. larger (elem_z low.now k) (elem_z high.now k))) cap }
{
    (0..count).fold(0, |sum, k| with_range(sum, low[k], high[k], cap))
}

// 16: the magnitude is above the limit. Not one with tables' `hall_too_large`: over two closures its contract would say of each that it may be called below the
// count, that what it gives is at most 2 ^ 63 and which number that is, for a body of three lines.
fn ranges_too_large(limit: u64, ranged: LentRanged) -> bool
    requires { (ranged.count ≤ length ranged.low.now) × (ranged.count ≤ length ranged.high.now) × (ranged.n ≤ length ranged.low_c.now) × (ranged.n ≤ length ranged.high_c.now) × (limit < 2 ^ 60) }
    ensures { result ≡ ltb limit (ranged_magnitude (ranged_of ranged.entry)) }
{
    let entries = ranges_capped(limit + 1, ranged.count, ranged.low, ranged.high);
    let costs = ranges_capped(limit + 1, ranged.n, ranged.low_c, ranged.high_c);
    limit < entries + 2 * costs
}

// 15: some entry's mirror is absent, or unequal at either end. `Placed` is asked as in tables/src/mirror.rt.
fn ranges_unmirrored(ranged: LentRanged) -> bool
    requires { Lent ranged.count ranged.rows.now ranged.cols.now ranged.low.now × Lent ranged.count ranged.rows.now ranged.cols.now ranged.high.now × Placed (elem ranged.rows.now) (elem ranged.cols.now) ranged.count }
    ensures { result ≡ (unmirrored (quadratic (low_of (ranged_of ranged.entry))) || unmirrored (quadratic (high_of (ranged_of ranged.entry)))) }
{
    unmirrored(ranged.entries(ranged.low)) || unmirrored(ranged.entries(ranged.high))
}

// What is refused of a ranged table.
#[tactic(auto, unfolding(crate::specs::Numbers::ranged_number, laws::specs::Refusal::first, laws::specs::Refusal::or_else), using(tables::proofs::Checks::size_parts))]
pub fn ranged_number(ranged: LentRanged) -> Result<(), Refusal>
    requires { (ranged.count ≤ most_entries → Lent ranged.count ranged.rows.now ranged.cols.now ranged.low.now × (ranged.count ≤ length ranged.high.now)) × (ranged.n ≤ most_wagons → (ranged.n ≤ length ranged.low_c.now) × (ranged.n ≤ length ranged.high_c.now)) }
    ensures { numbered result ≡ ranged_number (ranged_of ranged.entry) }
{
    if bad_size(0, MOST_WAGONS, MOST_ENTRIES, ranged.n, ranged.count) {
        return Err(Refusal::Size);
    }
    if bad_order(ranged.n, ranged.count, ranged.rows, ranged.cols) {
        return Err(Refusal::Entry);
    }
    if above(ranged.count, ranged.low, ranged.high) {
        return Err(Refusal::Range);
    }
    if ranges_unmirrored(ranged) {
        return Err(Refusal::Mirror);
    }
    if above(ranged.n, ranged.low_c, ranged.high_c) {
        return Err(Refusal::Range);
    }
    if ranges_too_large(MOST_MAGNITUDE, ranged) {
        return Err(Refusal::Magnitude);
    }
    Ok(())
}
