// The calls on tables given directly.
ghost use Rattle.std.specs.Prelude.{◌≡◌, ◌-◌};
ghost use Rattle.laws.specs.Lists.{elem_z, fill};
ghost use Rattle.tables.specs.Table.{table_of, value_at, sign_at, objective_of, floor_of};
ghost use Rattle.tables.specs.Bound.{entrywise};
ghost use Rattle.tables.specs.Cost.{cost_eighths, choice_at, decoded_byte};
ghost use Rattle.sign_table.specs.SignTable.{sign_of, sign_places};
ghost use Rattle.table_calls.specs.Answer.{eighths_answer, bound_answer, kept_if_refused};
ghost use Rattle.table_calls.specs.Convert.{Converts};
ghost use Rattle.table_calls.specs.Numbers.{floor_number, objective_number, cost_number, sign_number, decode_number};
ghost use Rattle.exports.specs.Answers.{by_number, Stays};

use crate::answers::hand_over;
use crate::lent::{lent_hall, lent_table};
use refusal::number_in;
use table_calls::{choices, halls, sign_tables};

#[unsafe(no_mangle)]
pub extern "C" fn wagonplan_raw_obj_rounded(
    m: usize,
    count: usize,
    rows: &[u16],
    cols: &[u16],
    values: &[i64],
    signs: &[u8],
    value: &mut i64,
) -> u8
    ensures value_after { by_number result value.new ≡ eighths_answer (objective_number m count rows.now cols.now values.now signs.now)
        (objective_of (table_of count rows.now cols.now values.now) (sign_at signs.now)) }
    ensures stays { Stays result value.old value.new }
{
    let table = lent_table(m, count, rows, cols, values);
    hand_over(sign_tables::obj_rounded(table, signs), value)
}

#[unsafe(no_mangle)]
pub extern "C" fn wagonplan_raw_floor_eighths(
    m: usize,
    count: usize,
    rows: &[u16],
    cols: &[u16],
    values: &[i64],
    value: &mut i64,
) -> u8
    ensures value_after { by_number result value.new ≡ eighths_answer (floor_number m count rows.now cols.now values.now)
        (floor_of (table_of count rows.now cols.now values.now)) }
    ensures stays { Stays result value.old value.new }
{
    let table = lent_table(m, count, rows, cols, values);
    hand_over(sign_tables::floor_eighths(table), value)
}

#[unsafe(no_mangle)]
pub extern "C" fn wagonplan_raw_entrywise_lower_bound(
    m: usize,
    count: usize,
    rows: &[u16],
    cols: &[u16],
    values: &[i64],
    value: &mut f64,
) -> u8
    ensures value_after { by_number result value.new ≡ bound_answer (floor_number m count rows.now cols.now values.now)
        (entrywise (table_of count rows.now cols.now values.now)) }
    ensures stays { Stays result value.old value.new }
{
    let table = lent_table(m, count, rows, cols, values);
    hand_over(sign_tables::entrywise_lower_bound(table), value)
}

#[unsafe(no_mangle)]
pub extern "C" fn wagonplan_raw_eval_qubo_objective(
    n: usize,
    count: usize,
    rows: &[u16],
    cols: &[u16],
    values: &[i64],
    c: &[i64],
    b: &[u8],
    value: &mut i64,
) -> u8
    ensures value_after { by_number result value.new ≡ eighths_answer (cost_number n count rows.now cols.now values.now c.now b.now)
        (cost_eighths n (value_at (table_of count rows.now cols.now values.now)) (elem_z c.now) (choice_at b.now)) }
    ensures stays { Stays result value.old value.new }
{
    let hall = lent_hall(n, count, rows, cols, values, c);
    hand_over(halls::eval_qubo_objective(hall, b), value)
}

#[unsafe(no_mangle)]
pub extern "C" fn wagonplan_raw_qubo_sign_table(
    n: usize,
    count: usize,
    rows: &[u16],
    cols: &[u16],
    values: &[i64],
    c: &[i64],
    to_rows: &mut [u16],
    to_cols: &mut [u16],
    to_values: &mut [i64],
    entries: &mut usize,
) -> u8
    ensures converts { Converts (sign_number n count rows.now cols.now values.now c.now to_rows.old to_cols.old to_values.old)
        (sign_of n (table_of count rows.now cols.now values.now) (elem_z c.now))
        (sign_places n (table_of count rows.now cols.now values.now) (elem_z c.now))
        to_rows.old to_cols.old to_values.old (by_number result entries.new) to_rows.new to_cols.new to_values.new }
    ensures stays { Stays result entries.old entries.new }
{
    let hall = lent_hall(n, count, rows, cols, values, c);
    hand_over(
        halls::qubo_sign_table(hall, to_rows, to_cols, to_values),
        entries,
    )
}

#[unsafe(no_mangle)]
pub extern "C" fn wagonplan_raw_qubo_binary_from_sign_solution(
    m: usize,
    signs: &[u8],
    b: &mut [u8],
) -> u8
    ensures { (result ≡ decode_number m signs.now b.old)
        × (b.new ≡ kept_if_refused (decode_number m signs.now b.old) b.old (fill (decoded_byte (m - 1) signs.now) (m - 1) b.old)) }
{
    number_in(choices::qubo_binary_from_sign_solution(m, signs, b))
}
