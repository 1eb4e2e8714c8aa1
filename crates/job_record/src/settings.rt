// The settings of a job record, its start and its draws: the first number from there on. Rule and start stand as 01's codes here: they are judged field by field,
// and a field that is not there has no kind.
// Fields are read as u64. `as u64`, `as usize`: std has no `From` between the two. `as u8`: a start was judged; `as u32`: of four bytes.
ghost use Rattle.std.specs.Prelude.{◌≡◌, ℕ, Bool, ◌&&◌, ◌||◌, not, ◌≤◌, ltb, eqb};
ghost use Rattle.ieee.specs.Floats.{double_of};
ghost use Rattle.laws.specs.Refusal.{first};
ghost use Rattle.limits.specs.Limits.{most_wagons, most_rank, most_bytes};
ghost use Rattle.run_limits.specs.Momentum.{is_momentum};
ghost use Rattle.refusal.specs.Number.{number_of, numbered};
ghost use Rattle.job_record.specs.Reading.{field_number, rule_judged, start_judged, settings_judged};
ghost use Rattle.job_record.specs.Number.{draws_numbers, run_numbers};

use crate::places::DRAW_COUNT;
use crate::reading::{SettingsFields, read_settings, settings_values};
use ieee::bits::double_of;
use job_reader::field_at;
use limits::{LAST_RULE, LAST_START, MOST_DRAWS, MOST_RANK, MOST_WIDTH};
use refusal::Refusal;
use run_limits::{is_momentum, rank_meant, start_length};

// A field: 11 past the end, `refusal` where its value is wrong.
pub(crate) fn field_number<F: Fn(u64) -> bool>(
    field: Option<u64>,
    refusal: Refusal,
    wrong: F,
) -> Result<(), Refusal>
    requires callable { F.IsAlwaysCallable wrong }
    ensures { (test : ℕ → Bool) → ((v : ℕ) (b : Bool) → F.post wrong v b → b ≡ test v) → numbered result ≡ field_number field test (number_of refusal) }
{
    let value = field.ok_or(Refusal::Frame)?;
    if wrong(value) {
        return Err(refusal);
    }
    Ok(())
}

// A field with a limit.
pub(crate) fn limit_number(field: Option<u64>, most: usize, refusal: Refusal) -> Result<(), Refusal>
    ensures { numbered result ≡ field_number field (ltb most) (number_of refusal) }
{
    field_number(field, refusal, |value| (most as u64) < value)
}

// The rule's number: 18 for a momentum out of range.
fn momentum_number(rule: u64, number: Option<u64>) -> Result<(), Refusal>
    ensures { numbered result ≡ field_number number (λ bits. eqb rule 4 && not (is_momentum (double_of bits))) 18 }
{
    field_number(number, Refusal::Rule, |bits| {
        rule == 4 && !is_momentum(double_of(bits))
    })
}

// Rank, rule, its number.
#[tactic(auto, unfolding(laws::specs::Refusal::first, laws::specs::Refusal::or_else))]
fn rule_number(rank: Option<u64>, rule: Option<u64>, number: Option<u64>) -> Result<(), Refusal>
    ensures { numbered result ≡ first (rule_judged rank rule number) }
{
    limit_number(rank, MOST_RANK, Refusal::Rank)?;
    limit_number(rule, LAST_RULE, Refusal::Rule)?;
    momentum_number(rule.unwrap_or(0), number)
}

// W, start, and a rank for a start of kind 1.
#[tactic(auto, unfolding(laws::specs::Refusal::first, laws::specs::Refusal::or_else))]
fn start_number(rank: Option<u64>, width: Option<u64>, start: Option<u64>) -> Result<(), Refusal>
    ensures { numbered result ≡ first (start_judged rank width start) }
{
    limit_number(width, MOST_WIDTH, Refusal::Search)?;
    limit_number(start, LAST_START, Refusal::Search)?;
    if start.unwrap_or(0) == 1 && rank.unwrap_or(0) == 0 {
        return Err(Refusal::Rank);
    }
    Ok(())
}

// Rank, rule, its number, most, minimum, two tolerances, W, start.
#[tactic(auto, unfolding(laws::specs::Refusal::first, laws::specs::Refusal::or_else))]
fn settings_number(f: SettingsFields) -> Result<(), Refusal>
    ensures { numbered result ≡ first (settings_judged f) }
{
    rule_number(f.rank, f.rule, f.rule_number)?;
    if f.most.is_none()
        || f.minimum.is_none()
        || f.objective_tolerance.is_none()
        || f.stationarity_tolerance.is_none()
    {
        return Err(Refusal::Frame);
    }
    start_number(f.rank, f.width, f.start)
}

// The start's doubles up to `at`, the draw count there, the draws of rank doubles each, and nothing more.
#[tactic(auto, unfolding(crate::specs::Number::draws_numbers, laws::specs::Refusal::first, laws::specs::Refusal::or_else))]
fn draws_number(job: &[u8], at: usize, rank: usize) -> Result<(), Refusal>
    requires { (at ≤ 1048576) × (rank ≤ most_rank) }
    ensures { numbered result ≡ first (draws_numbers job.now at rank) }
{
    if job.len() < at {
        return Err(Refusal::Frame);
    }
    let drawn = field_at(job, at, DRAW_COUNT);
    limit_number(drawn, MOST_DRAWS, Refusal::Search)?;
    let count = drawn.unwrap_or(0) as usize;
    if count == 0 {
        return Err(Refusal::Search);
    }
    let end = at + DRAW_COUNT + count * rank * 8;
    if job.len() != end {
        return Err(Refusal::Frame);
    }
    Ok(())
}

// The settings from `at` on, the start and the draws, for n wagons.
pub fn run_number(job: &[u8], n: usize, at: usize) -> Result<(), Refusal>
    requires { (n ≤ most_wagons) × (at ≤ most_bytes) }
    ensures { numbered result ≡ first (run_numbers job.now n at) }
{
    let f = read_settings(job, at);
    settings_number(f)?;
    let v = settings_values(f);
    let rank = rank_meant(n + 1, v.rank as usize);
    let count = start_length(v.start as u8, n + 1, rank, v.most as u32);
    draws_number(job, v.next + count * 8, rank)
}
