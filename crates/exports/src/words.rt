// The run record, the settings of an open and the result of a finish as words, by functions: a `From` between the array of words and another crate's record is
// refused as an orphan impl (tried), and a struct around the array would be taken apart again by `hand_words`, which takes an array.
// `as` between u64 and usize: std has no `From`; of a stage: a derive gives no number of an enum.
ghost use Rattle.std.specs.Prelude.{◌≡◌, ◌≤◌, List, Float, length};
ghost use Rattle.step_rules.specs.Rule.{rule_number};
ghost use Rattle.tables.specs.CostTable.{CostTable};
ghost use Rattle.run_contract.specs.Calls.{asked_of};
ghost use Rattle.exports.specs.Words.{run_words, setting_words, byte_in, count_in, stage_in, stage_word, rule_in, rule_value, run_in, words_of, settings_in, result_words_of};
ghost use Rattle.exports.specs.Answers.{HandsRun};

use crate::answers::hand_words;
use ieee::bits::{bits_of, bits_of_signed, double_of};
use refusal::Refusal;
use run_contract::FinishResult;
use run_record::{OpenSettings, Run, Stage};
use step_rules::{StepRule, rule_of};

pub const RUN_WORDS: usize = 13;

pub const SETTING_WORDS: usize = 8;

pub const RESULT_WORDS: usize = 11;

// A word as a byte. This and `count_in` are no generic function: of any T `TryFrom` doesn't say which words it refuses, and a trait of our own that does would be
// longer than the two bodies.
#[tactic(auto, unfolding(crate::specs::Words::within))]
pub fn byte_in(word: u64) -> u8
    ensures { result ≡ byte_in word }
{
    u8::try_from(word).unwrap_or(u8::MAX)
}

// A word as a count of 32 bits.
#[tactic(auto, unfolding(crate::specs::Words::within))]
pub fn count_in(word: u64) -> u32
    ensures { result ≡ count_in word }
{
    u32::try_from(word).unwrap_or(u32::MAX)
}

#[tactic(auto, using(crate::proofs::Back::stopped))]
fn stage_in(word: u64) -> Stage
    ensures { result ≡ stage_in word }
{
    if word == 0 {
        Stage::Open
    } else {
        Stage::Stopped
    }
}

fn stage_word(stage: Stage) -> u64
    ensures { result ≡ stage_word stage }
{
    stage as u64
}

// The rule of a word; one above 4 is a momentum that 18 refuses. At most 4 fits a byte: by `byte_in` the proof would have to show that it stays.
#[tactic(auto, unfolding(crate::specs::Words::rule_in))]
fn rule_in(word: u64, number: f64) -> StepRule
    ensures { result ≡ rule_in word number }
{
    if 4 < word {
        return StepRule::CoordMomentum(f64::NAN);
    }
    rule_of(word as u8, number)
}

fn rule_word(rule: StepRule) -> u64
    ensures { result ≡ rule_number rule }
{
    match rule {
        StepRule::Grad(_) => 0,
        StepRule::GradAdv(_) => 1,
        StepRule::Coord(_) => 2,
        StepRule::CoordNoStep => 3,
        StepRule::CoordMomentum(_) => 4,
    }
}

// The rule's own number; 0.0 where it has none.
fn rule_value(rule: StepRule) -> f64
    ensures { result ≡ rule_value rule }
{
    match rule {
        StepRule::Grad(x)
        | StepRule::GradAdv(x)
        | StepRule::Coord(x)
        | StepRule::CoordMomentum(x) => x,
        StepRule::CoordNoStep => 0.0,
    }
}

// The run record that words hold. Each call tests itself that they are long enough: a reader that answers 31 by `?` would need, beside each call in C, a function of
// its up to 17 parameters that answers a Result; one that answers an Option, a `let .. else` in the test's place.
#[tactic(auto, unfolding(crate::specs::Words::run_in))]
pub fn run_in(words: &[u64]) -> Run
    requires { run_words ≤ length words.now }
    ensures { result ≡ run_in words.now }
{
    Run {
        size: words[0] as usize,
        rank: words[1] as usize,
        rule: rule_in(words[2], double_of(words[3])),
        sweeps: count_in(words[4]),
        last_objective: double_of(words[5]),
        objective_tolerance: double_of(words[6]),
        stationarity_tolerance: double_of(words[7]),
        most: count_in(words[8]),
        minimum: count_in(words[9]),
        stage: stage_in(words[10]),
        status: byte_in(words[11]),
        standing: words[12],
    }
}

// The words of a run record.
pub fn words_of(run: Run) -> [u64; RUN_WORDS]
    ensures { (result ≡ words_of run) × (run_in result ≡ run) }
{
    [
        run.size as u64,
        run.rank as u64,
        rule_word(run.rule),
        bits_of(rule_value(run.rule)),
        u64::from(run.sweeps),
        bits_of(run.last_objective),
        bits_of(run.objective_tolerance),
        bits_of(run.stationarity_tolerance),
        u64::from(run.most),
        u64::from(run.minimum),
        stage_word(run.stage),
        u64::from(run.status),
        run.standing,
    ]
}

// The words of a result.
#[tactic(auto, unfolding(crate::specs::Words::result_words_of))]
pub fn result_words(x: FinishResult) -> [u64; RESULT_WORDS]
    ensures { result ≡ result_words_of x }
{
    [
        u64::from(x.status),
        x.rank as u64,
        x.n as u64,
        u64::from(x.sweeps),
        bits_of(x.relaxed_objective),
        bits_of(x.float_bound),
        bits_of_signed(x.floor),
        bits_of_signed(x.rounded_cost),
        bits_of_signed(x.cost),
        x.rounds,
        x.standing,
    ]
}

// The settings of an open that words hold.
#[tactic(auto, unfolding(crate::specs::Words::settings_in))]
pub fn settings_in(words: &[u64]) -> OpenSettings
    requires { setting_words ≤ length words.now }
    ensures { (t : CostTable) → (numbers : List Float) → asked_of t result numbers ≡ settings_in t words.now numbers }
{
    OpenSettings {
        rank: words[0] as usize,
        rule: byte_in(words[1]),
        number: double_of(words[2]),
        most: count_in(words[3]),
        minimum: count_in(words[4]),
        objective_tolerance: double_of(words[5]),
        stationarity_tolerance: double_of(words[6]),
        start: byte_in(words[7]),
    }
}

// The record that a call answered, over the front of the words; a refusal leaves them.
pub fn hand_run(answer: Result<Run, Refusal>, words: &mut [u64]) -> u8
    requires { run_words ≤ length words.old }
    ensures { HandsRun answer words.old result words.new }
{
    hand_words(answer.map(words_of), words)
}
