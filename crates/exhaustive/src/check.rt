// The numbers of the call: 31, 13 to 16, 24. Nothing is written.
// Arrays have a fixed size: no heap, a rule of the project (limits/src/lib.rt).
ghost use Rattle.std.specs.Prelude.{◌≡◌, length, ltb};
ghost use Rattle.laws.specs.Lists.{elem_z};
ghost use Rattle.refusal.specs.Number.{numbered};
ghost use Rattle.limits.specs.Limits.{most_wagons, most_entries, most_magnitude, most_walked};
ghost use Rattle.tables.specs.Lent.{LentWithin, lent_table, costs_of};
ghost use Rattle.tables.specs.Check.{hall_number};
ghost use Rattle.exhaustive.specs.Contract.{walk_short, walk_number};

use limits::{MOST_ENTRIES, MOST_WAGONS, MOST_WALKED};
use refusal::Refusal;
use slices::copy;
use tables::check::{hall_number, short_table, too_short};
use tables::lent::LentHall;

// Whether there are more wagons.
fn many(n: usize) -> bool
    ensures { result ≡ ltb most_walked n }
{
    MOST_WALKED < n
}

// 31: a slice is too short.
#[tactic(auto, unfolding(crate::specs::Contract::walk_short, laws::specs::Refusal::any_of))]
fn slices_short(hall: LentHall, b: usize) -> bool
    ensures { let t = hall.entry.table in result ≡ walk_short t.size t.count (length t.rows.now) (length t.cols.now) (length t.values.now) (length hall.entry.c.now) b }
{
    let n = hall.table.size;
    let refused = many(n);
    short_table(MOST_ENTRIES, hall.table)
        || too_short(refused, n, hall.c.len())
        || too_short(refused, n, b)
}

// 13 to 16, a cost that isn't there taken for 0.
fn house_number(hall: LentHall) -> Result<(), Refusal>
    requires { LentWithin most_entries hall.table }
    ensures { numbered result ≡ hall_number most_wagons most_entries most_magnitude hall.entry.table.size (lent_table hall.entry.table) (elem_z hall.entry.c.now) }
{
    let c = hall.c;
    let mut there = [0i64; MOST_WAGONS];
    let given = c.len().min(MOST_WAGONS);
    copy(&mut there[..given], &c[..given]);
    hall_number(LentHall {
        table: hall.table,
        c: &there,
    })
}

// The first number that applies; `b` is the length of the slice for the choice.
#[tactic(auto, unfolding(crate::specs::Contract::walk_number, laws::specs::Refusal::first, laws::specs::Refusal::or_else))]
pub fn walk_number(hall: LentHall, b: usize) -> Result<(), Refusal>
    ensures { let t = costs_of hall.entry in numbered result ≡ walk_number t.n t.count t.rows t.cols t.values t.c b }
{
    if slices_short(hall, b) {
        return Err(Refusal::Slice);
    }
    house_number(hall)?;
    if many(hall.table.size) {
        return Err(Refusal::Walk);
    }
    Ok(())
}
