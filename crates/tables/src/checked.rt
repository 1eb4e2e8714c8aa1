// 31 first, then the numbers of what is lent; what none of them refuses is handed over. Two functions: a `LentTable` becomes `Entries`, a
// `LentHall` a `JudgedHall`, each within its own limits. `short` stays beside what is lent, no `Option` of it: a caller judges it by its other slices too (signs, a
// choice), and the numbers are said of what is lent where a slice is short as well.
ghost use Rattle.std.specs.Prelude.{◌≡◌, false, [], ◌∷◌, ◌≤◌, length};
ghost use Rattle.std.specs.Result.{IfOk};
ghost use Rattle.laws.specs.Lists.{elem_z};
ghost use Rattle.laws.specs.Refusal.{◌if◌, first};
ghost use Rattle.limits.specs.Limits.{most_wagons, most_entries, most_magnitude, most_signs, most_sign_entries, most_sign_magnitude};
ghost use Rattle.refusal.specs.Number.{numbered};
ghost use Rattle.tables.specs.Check.{hall_number, table_number};
ghost use Rattle.tables.specs.Entries.{listed};
ghost use Rattle.tables.specs.Judged.{JudgedOf};
ghost use Rattle.tables.specs.Lent.{LentWithin, lent_table};
ghost use Rattle.tables.specs.Table.{Lent};

use crate::check::{hall_number, table_number};
use crate::entries::Entries;
use crate::judged::JudgedHall;
use crate::lent::{LentHall, LentTable};
use refusal::Refusal;

// The entries of a sign table that no number refuses.
#[tactic(auto, unfolding(laws::specs::Refusal::first, laws::specs::Refusal::or_else))]
pub fn checked_table(short: bool, table: LentTable) -> Result<Entries, Refusal>
    requires { short ≡ false → LentWithin most_sign_entries table }
    ensures number { numbered result ≡ first (31 if short ∷ table_number most_signs most_sign_entries most_sign_magnitude table.entry.size (lent_table table.entry) ∷ []) }
    ensures entries { IfOk result (λ e. listed e ≡ lent_table table.entry) }
{
    if short {
        return Err(Refusal::Slice);
    }
    table_number(table)?;
    Ok(table.entries())
}

// (H, c) as it is once judged, for who has judged it.
pub fn judged_hall(hall: LentHall) -> JudgedHall
    requires lent { let t = hall.table in Lent t.count t.rows.now t.cols.now t.values.now }
    requires costs_there { hall.table.size ≤ length hall.c.now }
    requires judged { hall_number most_wagons most_entries most_magnitude hall.table.size (lent_table hall.table) (elem_z hall.c.now) ≡ 0 }
    ensures { JudgedOf hall.entry result }
{
    JudgedHall {
        n: hall.table.size,
        table: hall.table.entries(),
        c: hall.c,
    }
}

// (H, c) that no number refuses.
#[tactic(auto, unfolding(laws::specs::Refusal::first, laws::specs::Refusal::or_else))]
pub fn checked_hall(short: bool, hall: LentHall) -> Result<JudgedHall, Refusal>
    requires { short ≡ false → LentWithin most_entries hall.table × (hall.table.size ≤ most_wagons → hall.table.size ≤ length hall.c.now) }
    ensures number { numbered result ≡ first (31 if short ∷ hall_number most_wagons most_entries most_magnitude hall.entry.table.size (lent_table hall.entry.table) (elem_z hall.entry.c.now) ∷ []) }
    ensures judged { IfOk result (JudgedOf hall.entry) }
{
    if short {
        return Err(Refusal::Slice);
    }
    hall_number(hall)?;
    Ok(judged_hall(hall))
}
