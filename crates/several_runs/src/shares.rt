// Who gets how many sweeps of a turn.
ghost use Rattle.std.specs.Prelude.{◌≡◌, ◌≤◌};
ghost use Rattle.limits.specs.Limits.{most_runs, most_turn};
ghost use Rattle.several_runs.specs.Turn.{run_at, only_open, open_below, share};

use limits::MOST_RUNS;
use run_record::{Run, Stage, is_stopped};

// 1 for an open run.
pub fn open_one(stage: Stage) -> u32
    ensures { result ≡ only_open stage 1 }
{
    u32::from(!is_stopped(stage))
}

// How many of the runs before `end` are open, at most eight, so that `as u32` loses none.
pub fn open_below(runs: [Run; MOST_RUNS], end: usize) -> u32
    requires { end ≤ most_runs }
    ensures { result ≡ open_below (run_at runs) end }
{
    runs[..end]
        .iter()
        .filter(|run| !is_stopped(run.stage))
        .count() as u32
}

// The share of the open run that has so many open ones before it.
#[tactic(auto, unfolding(crate::specs::Turn::share))]
fn share(sweeps: u32, open: u32, place: u32) -> u32
    requires { (1 ≤ «open») × (sweeps ≤ most_turn) }
    ensures { result ≡ share sweeps «open» place }
{
    sweeps / open + u32::from(place < sweeps % open)
}

// A run's share, none for a stopped one.
pub fn share_of(stage: Stage, sweeps: u32, open: u32, place: u32) -> u32
    requires { (only_open stage 1 ≤ «open») × (sweeps ≤ most_turn) }
    ensures { result ≡ only_open stage (share sweeps «open» place) }
{
    match stage {
        Stage::Open => share(sweeps, open, place),
        Stage::Stopped => 0,
    }
}
