// The check of a run: when it is due, what it looks at, and the record after it.
ghost use Rattle.std.specs.Prelude.{◌≡◌, ◌&&◌, ◌+◌, ◌*◌, ◌<◌, is_some, leb, length, unwrap_or};
ghost use Rattle.std.specs.Float.Ieee.{le};
ghost use Rattle.ieee.specs.Floats.{zero64};
ghost use Rattle.factor.specs.Shapes.{Shaped};
ghost use Rattle.step_rules.specs.Rule.{tests_objective};
ghost use Rattle.run_sweep.specs.Work.{work_in};
ghost use Rattle.run_sweep.specs.Running.{Countable};
ghost use Rattle.run_sweep.specs.Found.{found_number};
ghost use Rattle.run_sweep.specs.Sweep.{check_due, absolute, stop_status, stage_after, status_after, advanced, run_after};

use factor::table::Prepared;
use run_record::{Run, Stage};

// A check is due at sweep 1, the minimum, the most and every 20th.
#[tactic(auto, unfolding(crate::specs::Sweep::check_due, laws::specs::Refusal::any_of))]
fn check_due(sweeps: u32, minimum: u32, most: u32) -> bool
    ensures { result ≡ check_due sweeps minimum most }
{
    if sweeps == 1 {
        return true;
    }
    if sweeps == minimum {
        return true;
    }
    if sweeps == most {
        return true;
    }
    sweeps % 20 == 0
}

// The absolute value as 000 takes it: -0.0 stays, which `abs` turns round.
fn absolute(x: f64) -> f64
    ensures { result ≡ absolute x }
{
    if x < 0.0 { -x } else { x }
}

// Why a check stops the run: a small residual or a small change, or a rise of the objective. Each is its number in the run record.
#[derive(Clone, Copy)]
enum Stop {
    Settled = 1,
    Risen = 2,
}

// Why a check stops the run, if it does; the tolerance is there where the rule looks at the objective.
#[tactic(auto, unfolding(crate::specs::Sweep::stop_status, laws::specs::Refusal::first, laws::specs::Refusal::or_else))]
fn stop_found(tolerance: Option<f64>, settled: bool, previous: f64, new: f64) -> Option<Stop>
    ensures { found_number result ≡ stop_status (is_some tolerance) (unwrap_or tolerance zero64) settled previous new }
{
    if settled {
        return Some(Stop::Settled);
    }
    let tolerance = tolerance?;
    if absolute(new - previous) < tolerance {
        return Some(Stop::Settled);
    }
    (previous < new).then_some(Stop::Risen)
}

// The residual test, from the minimum on.
fn settled(minimum: u32, sweeps: u32, residual: f64, threshold: f64) -> bool
    ensures { result ≡ (leb minimum sweeps && le residual threshold) }
{
    minimum <= sweeps && residual <= threshold
}

// The stage after a check.
#[tactic(auto, using(crate::proofs::Checking::found_some), unfolding(crate::specs::Sweep::stage_after, laws::specs::Refusal::any_of))]
fn stage_after(found: Option<Stop>, full: bool, stage: Stage) -> Stage
    ensures { result ≡ stage_after (found_number found) full stage }
{
    if found.is_some() || full {
        Stage::Stopped
    } else {
        stage
    }
}

// The status after a check, a number in the run record; `as` is the one way from a case to its number.
#[tactic(auto, unfolding(crate::specs::Sweep::status_after))]
fn status_after(found: Option<Stop>, status: u8) -> u8
    ensures { result ≡ status_after (found_number found) status }
{
    found.map_or(status, |stop| stop as u8)
}

// The record after one more sweep, which left so many rows as they were: `as u64`, since a usize has no From. `run.sweeps < run.most` stays a clause, here, in `run_after` and in
// `sweep_on`: it holds before a sweep and need not after it, so that a struct around a Run of which it holds would be made anew for each sweep and taken apart here for `..run`.
#[tactic(auto, unfolding(crate::specs::Sweep::advanced))]
fn advanced(run: Run, last_objective: f64, found: Option<Stop>, left: usize) -> Run
    requires { (run.sweeps < run.most) × Countable run left }
    ensures { result ≡ advanced run last_objective (found_number found) left }
{
    let sweeps = run.sweeps + 1;
    let stage = stage_after(found, sweeps == run.most, run.stage);
    let status = status_after(found, run.status);
    Run {
        sweeps,
        last_objective,
        stage,
        status,
        standing: run.standing + left as u64,
        ..run
    }
}

// The record after one more sweep, which left this factor and so many rows as they were; `tests` says whether the rule tests the objective.
pub fn run_after(
    run: Run,
    tests: bool,
    left: usize,
    table: Prepared,
    factor: &[f64],
    product: &mut [f64],
    dual: &mut [f64],
) -> Run
    requires countable { Countable run left }
    requires sweeps_lt_most { (run.sweeps < run.most) × (tests ≡ tests_objective run.rule)
        × Shaped table.cols.now table.values.now table.starts.now factor.now run.size run.rank
        × (length product.old ≡ run.size * run.rank) × (length dual.old ≡ run.size) }
    ensures { result ≡ run_after run (work_in table.entry) factor.now left }
{
    let sweeps = run.sweeps + 1;
    if check_due(sweeps, run.minimum, run.most) {
        let m = run.size;
        let rank = run.rank;
        let tolerance = run.stationarity_tolerance;
        let seen = maxcut_oracle::check::check(table, m, rank, factor, tolerance, product, dual);
        let done = settled(run.minimum, sweeps, seen.residual, seen.threshold);
        let within = tests.then_some(run.objective_tolerance);
        let found = stop_found(within, done, run.last_objective, seen.objective);
        return advanced(run, seen.objective, found, left);
    }
    advanced(run, run.last_objective, None, left)
}
