// The calls on (H, c): n wagons, the entries of H in the first places of three slices.
ghost use Rattle.std.specs.Prelude.{◌≡◌, ◌+◌, ◌*◌};
ghost use Rattle.tables.specs.CostTable.{quadratic, linear};
ghost use Rattle.tables.specs.Lent.{costs_of};
ghost use Rattle.tables.specs.Table.{value_at};
ghost use Rattle.tables.specs.Cost.{cost_eighths, choice_at};
ghost use Rattle.sign_table.specs.SignTable.{sign_of, sign_places};
ghost use Rattle.refusal.specs.Number.{in_numbers};
ghost use Rattle.table_calls.specs.Answer.{eighths_answer};
ghost use Rattle.table_calls.specs.Convert.{Converts};
ghost use Rattle.table_calls.specs.Numbers.{cost_short, cost_number, room_short, sign_short, sign_number};

use limits::{MOST_ENTRIES, MOST_WAGONS};
use refusal::Refusal;
use sign_table::sign_matrix::sign_matrix;
use tables::check::{bad_size, short_hall, too_short};
use tables::checked::checked_hall;
use tables::lent::LentHall;
use tables::objective;

// 31 of `eval_qubo_objective`.
#[tactic(auto, unfolding(crate::specs::Numbers::cost_short, tables::specs::Check::short_hall, laws::specs::Refusal::any_of))]
fn cost_short(hall: LentHall, b: &[u8]) -> bool
    ensures { let t = costs_of hall.entry in result ≡ cost_short t.n t.count t.rows t.cols t.values t.c b.now }
{
    let n = hall.table.size;
    short_hall(hall) || too_short(MOST_WAGONS < n, n, b.len())
}

// The cost of a choice as bytes, 0 for 0 and any other for 1, in eighths.
#[tactic(auto, unfolding(crate::specs::Numbers::cost_number, crate::specs::Answer::answered))]
pub fn eval_qubo_objective(hall: LentHall, b: &[u8]) -> Result<i64, Refusal>
    ensures { let t = costs_of hall.entry in in_numbers result ≡ eighths_answer (cost_number t.n t.count t.rows t.cols t.values t.c b.now)
        (cost_eighths t.n (value_at (quadratic t)) (linear t) (choice_at b.now)) }
{
    let short = cost_short(hall, b);
    let h = checked_hall(short, hall)?;
    Ok(objective::eval_qubo_objective(h.n, h.table, h.c, b))
}

// 31 of the slices for the sign table, by their lengths.
#[tactic(auto, unfolding(tables::specs::Check::bad_size, crate::specs::Numbers::room_short, laws::specs::Refusal::any_of, laws::specs::Refusal::short))]
fn room_short(n: usize, count: usize, rows: usize, cols: usize, values: usize) -> bool
    ensures { result ≡ room_short n count rows cols values }
{
    if bad_size(0, MOST_WAGONS, MOST_ENTRIES, n, count) {
        return false;
    }
    let needed = count + 3 * n + 1;
    rows < needed || cols < needed || values < needed
}

// 31 of `qubo_sign_table`.
#[tactic(auto, unfolding(crate::specs::Numbers::sign_short, tables::specs::Check::short_hall, laws::specs::Refusal::any_of))]
fn sign_short(hall: LentHall, to_rows: &[u16], to_cols: &[u16], to_values: &[i64]) -> bool
    ensures { let t = costs_of hall.entry in result ≡ sign_short t.n t.count t.rows t.cols t.values t.c to_rows.now
        to_cols.now to_values.now }
{
    short_hall(hall)
        || room_short(
            hall.table.size,
            hall.table.count,
            to_rows.len(),
            to_cols.len(),
            to_values.len(),
        )
}

// `absorb_linear_terms_into_hessian`, then `qubo_hessian_to_sign_matrix`: the sign table of (H, c), in eighths, into the first places of the lent slices.
pub fn qubo_sign_table(
    hall: LentHall,
    to_rows: &mut [u16],
    to_cols: &mut [u16],
    to_values: &mut [i64],
) -> Result<usize, Refusal>
    ensures { let t = costs_of hall.entry in Converts (sign_number t.n t.count t.rows t.cols t.values t.c to_rows.old to_cols.old to_values.old)
        (sign_of t.n (quadratic t) (linear t))
        (sign_places t.n (quadratic t) (linear t))
        to_rows.old to_cols.old to_values.old (in_numbers result) to_rows.new to_cols.new to_values.new }
{
    let short = sign_short(hall, to_rows, to_cols, to_values);
    let h = checked_hall(short, hall)?;
    Ok(sign_matrix(h.n, h.table, h.c, to_rows, to_cols, to_values))
}
