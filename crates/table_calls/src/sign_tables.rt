// The calls on a sign table given directly: m signs, its entries in the first places of three slices.
ghost use Rattle.std.specs.Prelude.{◌≡◌};
ghost use Rattle.tables.specs.Table.{sign_at, objective_of, floor_of};
ghost use Rattle.tables.specs.Bound.{entrywise};
ghost use Rattle.tables.specs.Lent.{lent_table};
ghost use Rattle.refusal.specs.Number.{in_numbers};
ghost use Rattle.table_calls.specs.Answer.{eighths_answer, bound_answer};
ghost use Rattle.table_calls.specs.Numbers.{floor_number, objective_short, objective_number};

use limits::MOST_SIGN_ENTRIES;
use refusal::Refusal;
use tables::check::{bad_signs, short_table, too_short};
use tables::checked::checked_table;
use tables::lent::LentTable;
use tables::{bound, objective};

// 31 of `obj_rounded`.
#[tactic(auto, unfolding(crate::specs::Numbers::objective_short, laws::specs::Refusal::any_of))]
fn objective_short(table: LentTable, signs: &[u8]) -> bool
    ensures { let t = table.entry in result ≡ objective_short t.size t.count t.rows.now t.cols.now t.values.now signs.now }
{
    let m = table.size;
    short_table(MOST_SIGN_ENTRIES, table) || too_short(bad_signs(m), m, signs.len())
}

// The objective of signs as bytes, 0 for + and any other for −, in eighths.
#[tactic(auto, unfolding(crate::specs::Numbers::objective_number, crate::specs::Answer::answered))]
pub fn obj_rounded(table: LentTable, signs: &[u8]) -> Result<i64, Refusal>
    ensures { let t = table.entry in in_numbers result ≡ eighths_answer (objective_number t.size t.count t.rows.now t.cols.now t.values.now signs.now)
        (objective_of (lent_table t) (sign_at signs.now)) }
{
    let short = objective_short(table, signs);
    let entries = checked_table(short, table)?;
    Ok(objective::obj_rounded(entries, signs))
}

// The floor under every objective, in eighths. This and the next differ in what they answer of the entries: one function that takes that as a closure would be
// a third contract, which says of any closure what these two say, to save two lines.
#[tactic(auto, unfolding(crate::specs::Numbers::floor_number, crate::specs::Answer::answered))]
pub fn floor_eighths(table: LentTable) -> Result<i64, Refusal>
    ensures { let t = table.entry in in_numbers result ≡ eighths_answer (floor_number t.size t.count t.rows.now t.cols.now t.values.now)
        (floor_of (lent_table t)) }
{
    let short = short_table(MOST_SIGN_ENTRIES, table);
    let entries = checked_table(short, table)?;
    Ok(objective::floor_eighths(entries))
}

// The floor in doubles, less a margin.
#[tactic(auto, unfolding(crate::specs::Numbers::floor_number, crate::specs::Answer::answered))]
pub fn entrywise_lower_bound(table: LentTable) -> Result<f64, Refusal>
    ensures { let t = table.entry in in_numbers result ≡ bound_answer (floor_number t.size t.count t.rows.now t.cols.now t.values.now)
        (entrywise (lent_table t)) }
{
    let short = short_table(MOST_SIGN_ENTRIES, table);
    let entries = checked_table(short, table)?;
    Ok(bound::entrywise_lower_bound(entries))
}
