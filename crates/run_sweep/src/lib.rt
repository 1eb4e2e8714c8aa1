// Sweeps up to k over the table of a call, with the schedule of checks and the stops (000, the loop of
// `solve_maxcut_sdp_profiled`).
#![tactic(auto)]

pub mod check;

ghost use Rattle.std.specs.Prelude.{◌≡◌, ◌*◌, ◌≤◌, ◌<◌, length};
ghost use Rattle.run_sweep.specs.Work.{work_in};
ghost use Rattle.run_sweep.specs.Sweep.{swept_once, standing_once, run_after, sweeps_up_to};
ghost use Rattle.run_sweep.specs.Running.{Running, Sweepable};

use check::run_after;
use factor::table::Prepared;
use run_record::{Run, is_stopped};

// One sweep, and the check where one is due. `product`, `moved` and `dual` stay three slices: a struct of `&mut`s adds a clause that each keeps its name, and the step takes the first
// two of them, the check the first and the last.
fn sweep_on(
    run: Run,
    table: Prepared,
    factor: &mut [f64],
    product: &mut [f64],
    moved: &mut [f64],
    dual: &mut [f64],
) -> Run
    requires sweeps_lt_most { (run.sweeps < run.most) × (run.standing ≤ run.size * run.sweeps) }
    requires sweepable { Sweepable (work_in table) run.size run.rank factor.old (length product.old) (length moved.old) (length dual.old) }
    ensures { (result ≡ run_after run (work_in table.entry)
        (swept_once (work_in table.entry) run factor.old)
        (standing_once (work_in table.entry) run factor.old))
        × (factor.new ≡ swept_once (work_in table.entry) run factor.old) }
{
    let rule = run.rule;
    let m = run.size;
    let rank = run.rank;
    let answer = step_rules::step(rule, table, m, rank, factor, product, moved);
    run_after(
        run,
        answer.tests,
        answer.standing,
        table,
        factor,
        product,
        dual,
    )
}

// Up to k sweeps of a factor of m rows. `Running run` stays a clause, here and in sdp_solver's sweep.rt: the record is the caller's own and comes back as a Run, so that a struct with
// the fact would be made and taken apart at each call.
pub fn sweeps_up_to(
    run: Run,
    table: Prepared,
    k: u32,
    factor: &mut [f64],
    product: &mut [f64],
    moved: &mut [f64],
    dual: &mut [f64],
) -> Run
    requires { Running run × Sweepable (work_in table) run.size run.rank factor.old (length product.old) (length moved.old) (length dual.old) }
    ensures { (result ≡ (sweeps_up_to k (work_in table.entry) run factor.old).run)
        × (factor.new ≡ (sweeps_up_to k (work_in table.entry) run factor.old).factor) }
{
    let mut at = run;
    for _ in 0u32..k {
        if is_stopped(at.stage) {
            return at;
        }
        at = sweep_on(at, table, factor, product, moved, dual);
    }
    at
}
