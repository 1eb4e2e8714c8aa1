// The turn.
ghost use Rattle.std.specs.Prelude.{◌≡◌, length};
ghost use Rattle.std.specs.Result.{result_unwrap_or};
ghost use Rattle.refusal.specs.Number.{numbered};
ghost use Rattle.laws.specs.Lists.{over, fill};
ghost use Rattle.several_runs.specs.Lent.{lent_tables};
ghost use Rattle.several_runs.specs.Turn.{run_at, turn_number, turned_at, joined, Turns};

use super::member::{Starts, turn_one};
use super::numbers::turn_number;
use super::shares::{open_below, open_one, share_of};
use super::{HallSize, LentRuns};
use limits::MOST_RUNS;
use refusal::Refusal;
use run_record::Run;

// A turn that nothing refuses: each run makes up to its share.
#[tactic(auto, using(crate::proofs::OnTurns::few_runs))]
pub fn turn_accepted(
    run_count: usize,
    runs: [Run; MOST_RUNS],
    halls: [HallSize; MOST_RUNS],
    sweeps: u32,
    lent: LentRuns,
    factors: &mut [f64],
) -> [Run; MOST_RUNS]
    requires { turn_number sweeps run_count (run_at runs) (lent_tables halls lent) (length factors.old) ≡ 0 }
    ensures { (result ≡ fill (λ i. (turned_at sweeps run_count (run_at runs) (lent_tables halls lent.entry) factors.old i).run) run_count runs)
        × (factors.new ≡ over (joined (λ i. (turned_at sweeps run_count (run_at runs) (lent_tables halls lent.entry) factors.old i).factor) run_count) factors.old) }
{
    let open = open_below(runs, run_count);
    let mut next = runs;
    let mut at = Starts::default();
    let mut before: u32 = 0;
    for i in 0usize..run_count {
        let run = runs[i];
        let hall = halls[i];
        let k = share_of(run.stage, sweeps, open, before);
        let table = lent.hall_from(hall, at);
        next[i] = turn_one(run, table, at.factor, k, factors);
        before += open_one(run.stage);
        at = at.behind(hall, run);
    }
    next
}

// The turn call: up to eight runs share so many sweeps; the records after it.
pub fn turn(
    run_count: usize,
    runs: [Run; MOST_RUNS],
    halls: [HallSize; MOST_RUNS],
    sweeps: u32,
    lent: LentRuns,
    factors: &mut [f64],
) -> Result<[Run; MOST_RUNS], Refusal>
    ensures { Turns sweeps run_count runs (lent_tables halls lent.entry) factors.old (numbered result) (result_unwrap_or result runs) factors.new }
{
    turn_number(run_count, runs, halls, sweeps, lent, factors.len())?;
    Ok(turn_accepted(run_count, runs, halls, sweeps, lent, factors))
}
