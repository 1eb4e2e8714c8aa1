// What a turn refuses.
ghost use Rattle.std.specs.Prelude.{◌≡◌, ◌≤◌};
ghost use Rattle.limits.specs.Limits.{most_runs};
ghost use Rattle.refusal.specs.Number.{numbered};
ghost use Rattle.laws.specs.Refusal.{first_of};
ghost use Rattle.several_runs.specs.Lent.{lent_tables};
ghost use Rattle.several_runs.specs.Turn.{run_at, bad_turn, bad_count, number_at, turn_number};

use super::member::Starts;
use super::{HallSize, LentRuns};
use limits::{LEAST_TURN, MOST_RUNS, MOST_TURN};
use refusal::Refusal;
use run_record::Run;
use run_record::numbers::member_number;

// 25.
#[tactic(auto, unfolding(crate::specs::Turn::bad_turn, laws::specs::Refusal::any_of))]
pub fn bad_turn(sweeps: u32) -> bool
    ensures { result ≡ bad_turn sweeps }
{
    sweeps < LEAST_TURN || MOST_TURN < sweeps
}

// 26.
#[tactic(auto, unfolding(crate::specs::Turn::bad_count, laws::specs::Refusal::any_of))]
pub fn bad_count(run_count: usize) -> bool
    ensures { result ≡ bad_count run_count }
{
    run_count == 0 || MOST_RUNS < run_count
}

// What is refused of the first run that is refused.
fn members_number(
    run_count: usize,
    runs: [Run; MOST_RUNS],
    halls: [HallSize; MOST_RUNS],
    lent: LentRuns,
    factors: usize,
) -> Result<(), Refusal>
    requires { run_count ≤ most_runs }
    ensures { numbered result ≡ first_of (number_at (run_at runs) (lent_tables halls lent.entry) factors) run_count }
{
    let mut at = Starts::default();
    for i in 0usize..run_count {
        let run = runs[i];
        let hall = halls[i];
        let table = lent.hall_from(hall, at);
        member_number(run, table, factors - at.factor)?;
        at = at.behind(hall, run);
    }
    Ok(())
}

// What a turn refuses.
#[tactic(auto, unfolding(crate::specs::Turn::turn_number, laws::specs::Refusal::first, laws::specs::Refusal::or_else))]
pub fn turn_number(
    run_count: usize,
    runs: [Run; MOST_RUNS],
    halls: [HallSize; MOST_RUNS],
    sweeps: u32,
    lent: LentRuns,
    factors: usize,
) -> Result<(), Refusal>
    ensures { numbered result ≡ turn_number sweeps run_count (run_at runs) (lent_tables halls lent.entry) factors }
{
    if bad_turn(sweeps) {
        return Err(Refusal::TurnSweeps);
    }
    if bad_count(run_count) {
        return Err(Refusal::TurnRuns);
    }
    members_number(run_count, runs, halls, lent, factors)
}
