// The calls on a sign table and a factor.
ghost use Rattle.std.specs.Prelude.{length};
ghost use Rattle.tables.specs.Table.{table_of};
ghost use Rattle.run_limits.specs.Rank.{rank_meant};
ghost use Rattle.rounding.specs.Rounding.{rounded_sol, rounded_objective};
ghost use Rattle.maxcut_oracle.specs.Whole.{whole_multipliers};
ghost use Rattle.factor_calls.specs.Numbers.{rounded_number, dual_number, divided_number};
ghost use Rattle.factor_calls.specs.Equation8.{divided_multipliers};
ghost use Rattle.factor_calls.specs.Answers.{RoundsFactor, Multiplies};
ghost use Rattle.exports.specs.Answers.{by_number, Stays};

use crate::answers::hand_over;
use crate::lent::lent_table;
use refusal::number_in;
use run_limits::Draws;

#[unsafe(no_mangle)]
pub extern "C" fn wagonplan_raw_compute_rounded_sol(
    m: usize,
    count: usize,
    rows: &[u16],
    cols: &[u16],
    values: &[i64],
    rank: usize,
    factor: &[f64],
    draw_count: usize,
    draws: &[f64],
    out: &mut [u8],
    objective: &mut i64,
) -> u8
    ensures rounds_factor { RoundsFactor (rounded_number m count rows.now cols.now values.now rank (length factor.now) draw_count (length draws.now) (length out.old))
        (rounded_objective factor.now (rank_meant m rank) m draws.now (table_of count rows.now cols.now values.now) draw_count)
        (rounded_sol factor.now (rank_meant m rank) m draws.now (table_of count rows.now cols.now values.now) draw_count)
        out.old (by_number result objective.new) out.new }
    ensures stays { Stays result objective.old objective.new }
{
    let table = lent_table(m, count, rows, cols, values);
    let drawn = Draws {
        count: draw_count,
        numbers: draws,
    };
    hand_over(
        factor_calls::compute_rounded_sol(table, rank, factor, drawn, out),
        objective,
    )
}

#[unsafe(no_mangle)]
pub extern "C" fn wagonplan_raw_dual_variables(
    m: usize,
    count: usize,
    rows: &[u16],
    cols: &[u16],
    values: &[i64],
    rank: usize,
    factor: &[f64],
    out: &mut [f64],
) -> u8
    ensures { Multiplies (dual_number m count rows.now cols.now values.now rank (length factor.now) (length out.old))
        (whole_multipliers (table_of count rows.now cols.now values.now) m (rank_meant m rank) factor.now)
        out.old result out.new }
{
    let table = lent_table(m, count, rows, cols, values);
    number_in(factor_calls::dual_variables(table, rank, factor, out))
}

#[unsafe(no_mangle)]
pub extern "C" fn wagonplan_raw_dual_variables_divided(
    m: usize,
    count: usize,
    rows: &[u16],
    cols: &[u16],
    values: &[i64],
    rank: usize,
    factor: &[f64],
    out: &mut [f64],
) -> u8
    ensures { Multiplies (divided_number m count rows.now cols.now values.now rank (length factor.now) (length out.old))
        (divided_multipliers (table_of count rows.now cols.now values.now) m rank factor.now)
        out.old result out.new }
{
    let table = lent_table(m, count, rows, cols, values);
    number_in(factor_calls::dual_variables_divided(table, rank, factor, out))
}
