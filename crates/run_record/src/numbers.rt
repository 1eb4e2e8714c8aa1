// What each call refuses: the first in 01's order whose condition holds.
ghost use Rattle.std.specs.Prelude.{◌≡◌, false, ◌*◌, [], ◌∷◌, ltb};
ghost use Rattle.laws.specs.Refusal.{◌if◌, first};
ghost use Rattle.refusal.specs.Number.{numbered};
ghost use Rattle.run_record.specs.Lengths.{lengths_of};
ghost use Rattle.run_record.specs.Numbers.{table_short, own_refused, record_refused, cost_table_number, bad_momentum, sweep_number, member_number, width_refused, finish_number, rule_refused, open_number, exchange_number};
ghost use Rattle.tables.specs.Lent.{costs_of};

use super::lengths::{FinishSlices, finish_short, open_rank_refused, open_short, sweep_short};
use super::{MOMENTUM, OpenSettings, Run, is_stopped};
use limits::{LAST_RULE, LAST_START, MOST_RANK, MOST_WIDTH};
use refusal::Refusal;
use run_limits::{bad_draws, is_momentum};
use step_rules::StepRule;
use tables::lent::LentHall;

// Whether the rows left standing are more than the size times the sweeps done; that product isn't made, since a word may not hold it.
fn standing_above(standing: u64, size: usize, sweeps: u32) -> bool
    ensures { result ≡ ltb (size * sweeps) standing }
{
    if standing == 0 {
        return false;
    }
    if sweeps == 0 {
        return true;
    }
    // No `From` makes a u64 of a usize, which has as many bits.
    size as u64 <= (standing - 1) / u64::from(sweeps)
}

// Whether no run of any size can have this record.
#[tactic(auto, unfolding(crate::specs::Numbers::own_refused, laws::specs::Refusal::any_of))]
fn own_refused(run: Run) -> bool
    ensures { result ≡ own_refused run }
{
    if run.rank == 0 {
        return true;
    }
    if MOST_RANK < run.rank {
        return true;
    }
    if run.most < run.sweeps {
        return true;
    }
    if !is_stopped(run.stage) && run.sweeps == run.most {
        return true;
    }
    if 2 < run.status {
        return true;
    }
    if !is_stopped(run.stage) && run.status != 0 {
        return true;
    }
    standing_above(run.standing, run.size, run.sweeps)
}

// Whether no run of n wagons can have this record.
#[tactic(auto, unfolding(crate::specs::Numbers::record_refused, crate::specs::Numbers::own_refused, laws::specs::Refusal::any_of))]
fn record_refused(run: Run, n: usize) -> bool
    ensures { result ≡ record_refused run n }
{
    let size = run.size;
    if size == 0 {
        return true;
    }
    if size - 1 != n {
        return true;
    }
    own_refused(run)
}

// 13 to 16, of a table whose slices are long enough.
fn table_number(hall: LentHall) -> Result<(), Refusal>
    requires { table_short (costs_of hall) ≡ false }
    ensures { numbered result ≡ cost_table_number (costs_of hall.entry) }
{
    tables::check::hall_number(hall)
}

// Whether 18 refuses a record's rule: only rule 4 has a momentum.
fn bad_momentum(rule: StepRule) -> bool
    ensures { result ≡ bad_momentum rule }
{
    match rule {
        StepRule::CoordMomentum(beta) => !is_momentum(beta),
        _ => false,
    }
}

// 33, 13 to 16 and 18: what sweep, turn and finish judge alike of a run and its table.
#[tactic(auto, unfolding(laws::specs::Refusal::first, laws::specs::Refusal::or_else))]
fn record_number(run: Run, hall: LentHall) -> Result<(), Refusal>
    requires { table_short (costs_of hall) ≡ false }
    ensures { numbered result ≡ first (33 if record_refused run hall.entry.table.size
        ∷ cost_table_number (costs_of hall.entry)
        ∷ 18 if bad_momentum run.rule
        ∷ []) }
{
    if record_refused(run, hall.table.size) {
        return Err(Refusal::Record);
    }
    table_number(hall)?;
    if bad_momentum(run.rule) {
        return Err(Refusal::Rule);
    }
    Ok(())
}

// What a sweep refuses.
#[tactic(auto, unfolding(crate::specs::Numbers::sweep_number, crate::specs::Numbers::sweep_short, laws::specs::Refusal::first, laws::specs::Refusal::or_else), using(laws::proofs::Any::any_head))]
pub fn sweep_number(run: Run, hall: LentHall, factor: usize) -> Result<(), Refusal>
    ensures { numbered result ≡ sweep_number run (costs_of hall.entry) factor }
{
    if sweep_short(run, hall, factor) {
        return Err(Refusal::Slice);
    }
    if is_stopped(run.stage) {
        return Err(Refusal::Stage);
    }
    record_number(run, hall)
}

// What a turn refuses of a run among several, stopped or not.
#[tactic(auto, unfolding(crate::specs::Numbers::member_number, crate::specs::Numbers::sweep_short, laws::specs::Refusal::first, laws::specs::Refusal::or_else), using(laws::proofs::Any::any_head))]
pub fn member_number(run: Run, hall: LentHall, factor: usize) -> Result<(), Refusal>
    ensures { numbered result ≡ member_number run (costs_of hall.entry) factor }
{
    if sweep_short(run, hall, factor) {
        return Err(Refusal::Slice);
    }
    record_number(run, hall)
}

// Whether 19 refuses the width or the count of draws.
#[tactic(auto, unfolding(crate::specs::Numbers::width_refused))]
fn width_refused(width: usize, draw_count: usize) -> bool
    ensures { result ≡ width_refused width draw_count }
{
    MOST_WIDTH < width || bad_draws(draw_count)
}

// What a finish refuses.
#[tactic(auto, unfolding(crate::specs::Numbers::finish_number, crate::specs::Numbers::finish_short, laws::specs::Refusal::first, laws::specs::Refusal::or_else), using(laws::proofs::Any::any_head))]
pub fn finish_number(
    run: Run,
    hall: LentHall,
    width: usize,
    draw_count: usize,
    lent: FinishSlices,
) -> Result<(), Refusal>
    ensures { numbered result ≡ finish_number run (costs_of hall.entry) width draw_count (lengths_of lent) }
{
    if finish_short(run, hall, draw_count, lent) {
        return Err(Refusal::Slice);
    }
    if !is_stopped(run.stage) {
        return Err(Refusal::Stage);
    }
    record_number(run, hall)?;
    if width_refused(width, draw_count) {
        return Err(Refusal::Search);
    }
    Ok(())
}

// Whether 18 refuses the rule; its two numbers stay apart (`rule_of` in step_rules/src/lib.rt says why).
#[tactic(auto, unfolding(crate::specs::Numbers::rule_refused))]
fn rule_refused(rule: u8, number: f64) -> bool
    ensures { result ≡ rule_refused rule number }
{
    LAST_RULE < usize::from(rule) || rule == MOMENTUM && !is_momentum(number)
}

// What an open refuses.
#[tactic(auto, unfolding(crate::specs::Numbers::open_number, crate::specs::Numbers::open_short, laws::specs::Refusal::first, laws::specs::Refusal::or_else), using(laws::proofs::Any::any_head))]
pub fn open_number(
    hall: LentHall,
    asked: OpenSettings,
    numbers: usize,
    factor: usize,
) -> Result<(), Refusal>
    ensures { numbered result ≡ open_number (costs_of hall.entry) asked.rank asked.rule
        asked.number asked.most asked.start numbers factor }
{
    if open_short(hall, asked, numbers, factor) {
        return Err(Refusal::Slice);
    }
    table_number(hall)?;
    if open_rank_refused(asked.rank, asked.start) {
        return Err(Refusal::Rank);
    }
    if rule_refused(asked.rule, asked.number) {
        return Err(Refusal::Rule);
    }
    if LAST_START < usize::from(asked.start) {
        return Err(Refusal::Search);
    }
    Ok(())
}

// What the exchange of a rule refuses; the rule's two numbers stay apart, as in `rule_refused`.
#[tactic(auto, unfolding(crate::specs::Numbers::exchange_number, laws::specs::Refusal::first, laws::specs::Refusal::or_else))]
pub fn exchange_number(run: Run, rule: u8, number: f64) -> Result<(), Refusal>
    ensures { numbered result ≡ exchange_number run rule number }
{
    if is_stopped(run.stage) {
        return Err(Refusal::Stage);
    }
    if own_refused(run) {
        return Err(Refusal::Record);
    }
    if bad_momentum(run.rule) || rule_refused(rule, number) {
        return Err(Refusal::Rule);
    }
    Ok(())
}
