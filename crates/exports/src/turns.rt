// The turn that several runs share, their records and the sizes of their tables in words.
// Arrays have a fixed size: no heap, a rule of the project (limits/src/lib.rt).
// `run_count ≤ most_runs` stands in three contracts, beside a slice's length: a struct of the count with that as its ghost field would be opened in
// each, and save none of the other clauses.
ghost use Rattle.std.specs.Prelude.{◌≡◌, ℕ, ◌*◌, ◌≤◌, ◌<◌, length};
ghost use Rattle.laws.specs.Lists.{over};
ghost use Rattle.limits.specs.Limits.{most_runs};
ghost use Rattle.several_runs.specs.Turn.{blank, run_at, joined};
ghost use Rattle.exports.specs.Words.{run_words, run_in, words_of};
ghost use Rattle.refusal.specs.Number.{numbered};
ghost use Rattle.exports.specs.TurnWords.{hall_words, runs_in, halls_in, early_number, TurnsWords};

use crate::words::{RUN_WORDS, run_in, words_of};
use limits::MOST_RUNS;
use refusal::{Refusal, number_in};
use run_record::{Run, Stage};
use several_runs::numbers::{bad_count, bad_turn};
use several_runs::turn::turn;
use several_runs::{HallSize, LentRuns};
use slices::copy;
use step_rules::StepRule;

pub const HALL_WORDS: usize = 2;

// What is refused before a record is read.
#[tactic(auto, using(several_runs::proofs::Counted::count_few), unfolding(crate::specs::TurnWords::early_number, laws::specs::Refusal::first, laws::specs::Refusal::or_else))]
fn early_number(sweeps: u32, run_count: usize, words: usize, sizes: usize) -> Result<(), Refusal>
    ensures { numbered result ≡ early_number sweeps run_count words sizes }
{
    if bad_turn(sweeps) {
        return Err(Refusal::TurnSweeps);
    }
    if bad_count(run_count) {
        return Err(Refusal::TurnRuns);
    }
    if words < RUN_WORDS * run_count {
        return Err(Refusal::Slice);
    }
    if sizes < HALL_WORDS * run_count {
        return Err(Refusal::Slice);
    }
    Ok(())
}

// A place without a run.
fn no_run() -> Run
    ensures { result ≡ blank }
{
    let none = f64::NAN;
    Run {
        size: 0,
        rank: 0,
        rule: StepRule::Grad(none),
        sweeps: 0,
        last_objective: none,
        objective_tolerance: none,
        stationarity_tolerance: none,
        most: 0,
        minimum: 0,
        stage: Stage::Open,
        status: 0,
        standing: 0,
    }
}

// The records that words hold, run after run. Arrays of eight beside `run_count`, since `turn` takes them: a public function, which may not take less.
fn runs_in(run_count: usize, words: &[u64]) -> [Run; MOST_RUNS]
    requires { (run_count ≤ most_runs) × (run_words * run_count ≤ length words.now) }
    ensures { result ≡ runs_in run_count words.now }
{
    let mut runs = [no_run(); MOST_RUNS];
    for i in 0usize..run_count {
        let at = RUN_WORDS * i;
        runs[i] = run_in(&words[at..]);
    }
    runs
}

// The sizes of their tables. u64 to usize by `as`: the library has no From for it.
fn halls_in(run_count: usize, sizes: &[u64]) -> [HallSize; MOST_RUNS]
    requires { (run_count ≤ most_runs) × (hall_words * run_count ≤ length sizes.now) }
    ensures { result ≡ halls_in run_count sizes.now }
{
    let mut halls = [HallSize { n: 0, count: 0 }; MOST_RUNS];
    for i in 0usize..run_count {
        let at = HALL_WORDS * i;
        halls[i] = HallSize {
            n: sizes[at] as usize,
            count: sizes[at + 1] as usize,
        };
    }
    halls
}

// Writes the records over the front of the words, run after run.
fn put_runs(run_count: usize, runs: [Run; MOST_RUNS], words: &mut [u64])
    requires { (run_count ≤ most_runs) × (run_words * run_count ≤ length words.old) }
    ensures { (words.new ≡ over (joined (λ i. words_of (run_at runs i)) run_count) words.old) × ((i : ℕ) → i < run_count → run_in (words_of (run_at runs i)) ≡ run_at runs i) }
{
    for i in 0usize..run_count {
        let at = RUN_WORDS * i;
        copy(&mut words[at..at + RUN_WORDS], &words_of(runs[i]));
    }
}

// The call on the runs' tables, as lent.
fn turn_words(
    run_count: usize,
    words: &mut [u64],
    sizes: &[u64],
    sweeps: u32,
    lent: LentRuns,
    factors: &mut [f64],
) -> Result<(), Refusal>
    ensures { TurnsWords sweeps run_count words.old sizes.now lent.entry.rows.now lent.entry.cols.now lent.entry.values.now lent.entry.c.now
        factors.old (numbered result) words.new factors.new }
{
    early_number(sweeps, run_count, words.len(), sizes.len())?;
    let runs = runs_in(run_count, words);
    let halls = halls_in(run_count, sizes);
    let after = turn(run_count, runs, halls, sweeps, lent, factors)?;
    put_runs(run_count, after, words);
    Ok(())
}

#[unsafe(no_mangle)]
pub extern "C" fn wagonplan_raw_turn(
    run_count: usize,
    words: &mut [u64],
    sizes: &[u64],
    sweeps: u32,
    rows: &[u16],
    cols: &[u16],
    values: &[i64],
    c: &[i64],
    factors: &mut [f64],
) -> u8
    ensures { TurnsWords sweeps run_count words.old sizes.now rows.now cols.now values.now c.now
        factors.old result words.new factors.new }
{
    let lent = LentRuns {
        rows,
        cols,
        values,
        c,
    };
    number_in(turn_words(run_count, words, sizes, sweeps, lent, factors))
}
