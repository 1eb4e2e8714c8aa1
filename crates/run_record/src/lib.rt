// The run record, and the numbers that open, sweep and finish answer, judged before anything is written (01, "Run",
// "Numbers from the state").
#![tactic(auto)]

pub mod lengths;
pub mod numbers;

ghost use Rattle.std.specs.Prelude.{◌≡◌};
ghost use Rattle.run_record.specs.Numbers.{is_stopped};

use step_rules::StepRule;

#[derive(Clone, Copy)]
pub enum Stage {
    Open,
    Stopped,
}

// The run record of 01: most and minimum are the sweep limits; status is 0 until a check stops the run with 1 or 2; standing is the total, over all
// sweeps under rules 3 and 4, of the rows that a sweep left as they were. `status` is a number since a caller may hand in any: one above 2 is
// refused by 33.
#[derive(Clone, Copy)]
pub struct Run {
    pub size: usize,
    pub rank: usize,
    pub rule: StepRule,
    pub sweeps: u32,
    pub last_objective: f64,
    pub objective_tolerance: f64,
    pub stationarity_tolerance: f64,
    pub most: u32,
    pub minimum: u32,
    pub stage: Stage,
    pub status: u8,
    pub standing: u64,
}

// What an open is asked for: rank 0 is the default rank, `number` is the rule's. Rule and start are 01's numbers, since a caller may hand in any:
// one that is none of them is refused by 18 and 19. `most` to `stationarity_tolerance` are fields of Run and of job_record's Job too, as 01 lists them of each: in a struct of the four
// they would take another step in each contract on a run (`run.limits.most`), to spare two literals three lines each. A Run's `rank` is the one that is meant.
#[derive(Clone, Copy)]
pub struct OpenSettings {
    pub rank: usize,
    pub rule: u8,
    pub number: f64,
    pub most: u32,
    pub minimum: u32,
    pub objective_tolerance: f64,
    pub stationarity_tolerance: f64,
    pub start: u8,
}

// 01's rule that has a momentum, alone of all.
const MOMENTUM: u8 = 4;

// 01's kind of start whose rank must be given.
const RANKED: u8 = 1;

// Whether a run takes no more sweeps. Contracts speak of this function: with a derived `PartialEq` each test would be turned into it first.
pub fn is_stopped(stage: Stage) -> bool
    ensures { result ≡ is_stopped stage }
{
    matches!(stage, Stage::Stopped)
}
