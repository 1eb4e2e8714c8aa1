// The calls on a sign table given directly that take a factor. None has a `requires`: what can't be used is refused by its number, and a
// refusal writes nothing. Once judged, m, the table, the rank and the factor are one value (qv.rt). Before, table, rank and factor stay three parameters:
// nothing is known of them yet, so that a struct would hold no fact and spare no clause.
// Arrays have a fixed size: no heap, a rule of the project (limits/src/lib.rt).
#![tactic(auto)]

mod numbers;
mod qv; // qv.rt: the table and the factor of a call that is accepted
mod whole; // whole.rt: the multipliers over the whole table, divided or not

ghost use Rattle.std.specs.Prelude.{◌≡◌, ◌*◌, ◌≤◌, length};
ghost use Rattle.laws.specs.Lists.{over};
ghost use Rattle.refusal.specs.Number.{in_numbers, numbered};
ghost use Rattle.run_limits.specs.Rank.{rank_meant};
ghost use Rattle.rounding.specs.Rounding.{rounded_sol, rounded_objective};
ghost use Rattle.maxcut_oracle.specs.Whole.{whole_multipliers};
ghost use Rattle.factor_calls.specs.Numbers.{rounded_number, dual_number, divided_number};
ghost use Rattle.factor_calls.specs.Equation8.{divided_multipliers, multipliers_by};
ghost use Rattle.factor_calls.specs.Answers.{RoundsFactor, Multiplies};
ghost use Rattle.tables.specs.Entries.{listed};
ghost use Rattle.tables.specs.Lent.{lent_table};

use limits::{MOST_RANK, MOST_SIGNS};
use numbers::{divided_table, dual_table, rounded_table};
use qv::Qv;
use refusal::Refusal;
use run_limits::{Draws, rank_meant};
use tables::lent::LentTable;
use whole::whole_multipliers;

// The rounding of accepted arguments, with room for a draw's direction and its signs.
#[tactic(auto, using(tables::proofs::Checks::table_accepted))]
fn round(qv: Qv, draws: Draws, out: &mut [u8]) -> i64
    requires { (draws.count * qv.rank ≤ length draws.numbers.now) × (1 ≤ draws.count) × (qv.m ≤ length out.old) }
    ensures value { let q = qv.entry in result ≡ rounded_objective q.factor.now q.rank q.m draws.entry.numbers.now (listed q.table) draws.entry.count }
    ensures out_after { let q = qv.entry in out.new ≡ over (rounded_sol q.factor.now q.rank q.m draws.entry.numbers.now
        (listed q.table) draws.entry.count) out.old }
{
    let mut direction = [0.0; MOST_RANK];
    let mut signs = [0; MOST_SIGNS];
    rounding::compute_rounded_sol(
        qv.table,
        qv.factor,
        qv.rank,
        qv.m,
        draws,
        &mut direction[..qv.rank],
        &mut signs[..qv.m],
        &mut out[..qv.m],
    )
}

// The first draw of least objective: its signs in the first places of `out`, and the objective in eighths. A rank of 0 means the default
// rank of the table's size.
pub fn compute_rounded_sol(
    table: LentTable,
    rank: usize,
    factor: &[f64],
    draws: Draws,
    out: &mut [u8],
) -> Result<i64, Refusal>
    ensures { let t = table.entry in RoundsFactor (rounded_number t.size t.count t.rows.now t.cols.now t.values.now rank (length factor.now) draws.entry.count (length draws.entry.numbers.now) (length out.old))
        (rounded_objective factor.now (rank_meant t.size rank) t.size draws.entry.numbers.now (lent_table t) draws.entry.count)
        (rounded_sol factor.now (rank_meant t.size rank) t.size draws.entry.numbers.now (lent_table t) draws.entry.count)
        out.old (in_numbers result) out.new }
{
    let entries = rounded_table(table, rank, factor.len(), draws, out.len())?;
    let meant = rank_meant(table.size, rank);
    let qv = Qv {
        m: table.size,
        table: entries,
        rank: meant,
        factor,
    };
    let objective = round(qv, draws, out);
    Ok(objective)
}

// The multipliers of accepted arguments, divided or not, with room for a row's sums.
fn multiply(divided: bool, qv: Qv, out: &mut [f64])
    requires { qv.m ≤ length out.old }
    ensures { let q = qv.entry in out.new ≡ over (multipliers_by divided (listed q.table) q.m q.rank q.factor.now) out.old }
{
    let mut sums = [0.0; MOST_RANK];
    whole_multipliers(divided, qv, &mut sums[..qv.rank], &mut out[..qv.m]);
}

// 002's `dual_variables(Q, V)`: the multipliers of the factor's rows, as many as the table's size, over the whole table, the diagonal in it and
// divided by nothing, in the first places of `out`. A rank of 0 means the default rank of the table's size. The result field of a run is
// another value: `maxcut_oracle::objective::dual_variables`.
#[tactic(auto, using(crate::proofs::Accepting::dual_accepted))]
pub fn dual_variables(
    table: LentTable,
    rank: usize,
    factor: &[f64],
    out: &mut [f64],
) -> Result<(), Refusal>
    ensures { let t = table.entry in Multiplies (dual_number t.size t.count t.rows.now t.cols.now t.values.now rank (length factor.now) (length out.old))
        (whole_multipliers (lent_table t) t.size (rank_meant t.size rank) factor.now)
        out.old (numbered result) out.new }
{
    let entries = dual_table(table, rank, factor.len(), out.len())?;
    let meant = rank_meant(table.size, rank);
    let qv = Qv {
        m: table.size,
        table: entries,
        rank: meant,
        factor,
    };
    multiply(false, qv, out);
    Ok(())
}

// Equation 8 of arXiv 0807.4423 with its denominator: what `dual_variables` gives, each row's divided by the row's product with itself, in the
// first places of `out`. The rank is given: 0 is refused. A row of zeros, of NaN, or too small or too
// large to be squared gives what the division gives.
#[tactic(auto, using(crate::proofs::Accepting::divided_accepted))]
pub fn dual_variables_divided(
    table: LentTable,
    rank: usize,
    factor: &[f64],
    out: &mut [f64],
) -> Result<(), Refusal>
    ensures { let t = table.entry in Multiplies (divided_number t.size t.count t.rows.now t.cols.now t.values.now rank (length factor.now) (length out.old))
        (divided_multipliers (lent_table t) t.size rank factor.now)
        out.old (numbered result) out.new }
{
    let entries = divided_table(table, rank, factor.len(), out.len())?;
    let qv = Qv {
        m: table.size,
        table: entries,
        rank,
        factor,
    };
    multiply(true, qv, out);
    Ok(())
}
