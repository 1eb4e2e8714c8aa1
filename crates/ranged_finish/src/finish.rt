// The finish over costs known within ranges: on the high table, with the choice's figures at both ends.
ghost use Rattle.std.specs.Prelude.{◌≡◌, Ok};
ghost use Rattle.refusal.specs.Number.{in_numbers};
ghost use Rattle.run_contract.specs.Calls.{finish_lengths, Finishes};
ghost use Rattle.ranged_finish.specs.Ranged.{ranged_of, high_of};
ghost use Rattle.ranged_finish.specs.Numbers.{ranged_finish_number};
ghost use Rattle.ranged_finish.specs.Call.{Figures, RangedFinishes};

use crate::figures::floor_of;
use crate::number::ranged_finish_number;
use crate::{LentRanged, RangedResult};
use refusal::Refusal;
use run_limits::Draws;
use run_record::Run;
use run_record::lengths::FinishSlices;
use sdp_solver::finish::finish_accepted;
use tables::judged::JudgedHall;
use tables::objective::eval_qubo_objective;

// The finish that no number refuses. The slices that are written are three `&mut`, for the reason at `finalize::finalize`.
#[tactic(auto, using(crate::proofs::Theorems::ranged_finishable))]
fn finish_ranged_accepted(
    run: Run,
    ranged: LentRanged,
    width: usize,
    draws: Draws,
    factor: &[f64],
    b: &mut [u8],
    dual_variables: &mut [f64],
    workspace: &mut [u64],
) -> RangedResult
    requires { ranged_finish_number run (ranged_of ranged) width draws.count (finish_lengths draws.numbers.now factor.now b.old dual_variables.old workspace.old) ≡ 0 }
    ensures finished { Finishes run (high_of (ranged_of ranged.entry))
        width draws.entry.count draws.entry.numbers.now factor.now b.old dual_variables.old workspace.old
        (Ok result.result) b.new dual_variables.new workspace.new }
    ensures figures { Figures (ranged_of ranged.entry) b.new result.low result.high result.low_floor }
{
    let result = finish_accepted(
        run,
        ranged.high_hall(),
        width,
        draws,
        factor,
        b,
        dual_variables,
        workspace,
    );
    let n = ranged.n;
    let low_table = ranged.entries(ranged.low);
    let least = eval_qubo_objective(n, low_table, ranged.low_c, b);
    let high_table = ranged.entries(ranged.high);
    let most = eval_qubo_objective(n, high_table, ranged.high_c, b);
    let low_hall = JudgedHall {
        n,
        table: low_table,
        c: ranged.low_c,
    };
    let floor = floor_of(low_hall);
    RangedResult {
        result,
        low: least,
        high: most,
        low_floor: floor,
    }
}

// Finishes a stopped run over a ranged table; it changes no run record and no factor, and may be repeated.
pub fn finish_ranged(
    run: Run,
    ranged: LentRanged,
    width: usize,
    draws: Draws,
    factor: &[f64],
    b: &mut [u8],
    dual_variables: &mut [f64],
    workspace: &mut [u64],
) -> Result<RangedResult, Refusal>
    ensures { RangedFinishes run (ranged_of ranged.entry)
        width draws.entry.count draws.entry.numbers.now factor.now b.old dual_variables.old workspace.old
        (in_numbers result) b.new dual_variables.new workspace.new }
{
    // This literal stands in sdp_solver too. A function of run_record that makes it would take five slices, of which three are reborrowed, and say five lengths:
    // with its clause and both calls it is no shorter than the two literals.
    let lent = FinishSlices {
        draws: draws.numbers.len(),
        factor: factor.len(),
        b: b.len(),
        dual: dual_variables.len(),
        workspace: workspace.len(),
    };
    ranged_finish_number(run, ranged, width, draws.count, lent)?;
    Ok(finish_ranged_accepted(
        run,
        ranged,
        width,
        draws,
        factor,
        b,
        dual_variables,
        workspace,
    ))
}
