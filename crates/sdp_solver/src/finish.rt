// The finish call: rounding, search and figures of a stopped run.
ghost use Rattle.std.specs.Prelude.{◌≡◌, Ok};
ghost use Rattle.refusal.specs.Number.{in_numbers};
ghost use Rattle.run_record.specs.Numbers.{finish_number};
ghost use Rattle.run_contract.specs.Calls.{finish_lengths, Finishes};
ghost use Rattle.tables.specs.Lent.{costs_of};

use finalize::finalize;
use limits::SEARCH_WORKSPACE;
use refusal::Refusal;
use run_contract::FinishResult;
use run_limits::Draws;
use run_record::Run;
use run_record::lengths::FinishSlices;
use run_record::numbers::finish_number;
use tables::checked::judged_hall;
use tables::lent::LentHall;

// Finishes a stopped run that nothing refuses. The figures are copied one by one: the result's fields are 01's, in its order, and with `Figures` among them the
// diagonal's sum would stand beside the relaxed objective, which has it in it. The slices that are written are three `&mut`, for the reason at `finalize`.
// What is read stays five parameters, as in `finish`: `Finishes` names each apart, so that a struct of them would spare no clause, and each of the four callers
// would write its literal in the place of the arguments.
#[tactic(auto, using(run_contract::proofs::Accepting::finish_accepted))]
pub fn finish_accepted(
    run: Run,
    hall: LentHall,
    width: usize,
    draws: Draws,
    factor: &[f64],
    b: &mut [u8],
    dual_variables: &mut [f64],
    workspace: &mut [u64],
) -> FinishResult
    requires { finish_number run (costs_of hall) width draws.count
        (finish_lengths draws.numbers.now factor.now b.old dual_variables.old workspace.old) ≡ 0 }
    ensures { Finishes run (costs_of hall.entry) width draws.entry.count draws.entry.numbers.now factor.now b.old dual_variables.old workspace.old
        (Ok result) b.new dual_variables.new workspace.new }
{
    let rank = run.rank;
    let figures = finalize(
        judged_hall(hall),
        rank,
        width,
        draws,
        factor,
        b,
        dual_variables,
        &mut workspace[0..SEARCH_WORKSPACE],
    );
    FinishResult {
        status: run.status,
        rank,
        n: hall.table.size,
        sweeps: run.sweeps,
        relaxed_objective: run.last_objective + figures.diagonal_sum,
        float_bound: figures.float_bound,
        floor: figures.floor,
        rounded_cost: figures.chosen.rounded_cost,
        cost: figures.chosen.cost,
        rounds: figures.chosen.rounds,
        standing: run.standing,
    }
}

// Finishes a stopped run over the (H, c) given; it changes no run record and no factor, and may be repeated.
pub fn finish(
    run: Run,
    hall: LentHall,
    width: usize,
    draws: Draws,
    factor: &[f64],
    b: &mut [u8],
    dual_variables: &mut [f64],
    workspace: &mut [u64],
) -> Result<FinishResult, Refusal>
    ensures { Finishes run (costs_of hall.entry) width draws.entry.count draws.entry.numbers.now factor.now b.old dual_variables.old workspace.old
        (in_numbers result) b.new dual_variables.new workspace.new }
{
    // This literal stands again in ranged_finish: a function with the five slices as parameters would be as long at both places.
    let lent = FinishSlices {
        draws: draws.numbers.len(),
        factor: factor.len(),
        b: b.len(),
        dual: dual_variables.len(),
        workspace: workspace.len(),
    };
    finish_number(run, hall, width, draws.count, lent)?;
    Ok(finish_accepted(
        run,
        hall,
        width,
        draws,
        factor,
        b,
        dual_variables,
        workspace,
    ))
}
