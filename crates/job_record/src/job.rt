// An accepted job: its settings, and its start, draws and states read into slices.
// Fields are read as u64. `as usize`: std has no `From<u64>` for usize. `as u8`, `as u32`: the value was judged to fit, or is of as many bytes.
ghost use Rattle.std.specs.Prelude.{◌≡◌, ◌+◌, ◌*◌, ◌≤◌, ◌<◌, ◌^◌, length};
ghost use Rattle.laws.specs.Lists.{fill, over};
ghost use Rattle.limits.specs.Limits.{most_wagons, most_rank, most_start, most_drawn};
ghost use Rattle.job_record.specs.Number.{job_number};
ghost use Rattle.job_record.specs.Reading.{HeadThere, settings_from, settings_values};
ghost use Rattle.job_record.specs.Values.{pin_count, free_wagons, settings_place, draws_place, job_states, values_in, job_of, job_rank, job_start_count, job_start, job_drawn, job_draw};

use crate::arrays::read_stored;
use crate::kinds::{Rule, Start};
use crate::pins::{Behind, FREE, behind_pins, pins_number};
use crate::places::{DRAW_COUNT, costs_end};
use crate::reading::{
    HeadValues, JudgedHead, SettingsValues, head_values, read_head, read_settings, settings_values,
};
use crate::versions::carries_pins;
use ieee::bits::double_of;
use job_reader::field_at;
use run_limits::{rank_meant, start_length};

// The fields of one number each: n, the entries, the pins and the wagons that they leave free; the rank as given (0 means the default rank:
// no Option, since the open that it is handed to takes the number).
#[derive(Clone, Copy)]
pub struct Job {
    pub n: usize,
    pub count: usize,
    pub pins: usize,
    pub free: usize,
    pub rank: usize,
    pub rule: Rule,
    pub rule_number: f64,
    pub most: u32,
    pub minimum: u32,
    pub objective_tolerance: f64,
    pub stationarity_tolerance: f64,
    pub width: usize,
    pub start: Start,
    pub draw_count: usize,
}

// The bytes of a job that is not refused.
#[derive(Clone, Copy)]
pub struct AcceptedJob<'a> {
    pub bytes: &'a [u8],
    ghost accepted: { job_number bytes.now ≡ 0 },
}

// The numbers of an accepted job's head.
fn accepted_head(job: AcceptedJob) -> HeadValues
    ensures { HeadThere job.entry.bytes.now result }
{
    head_values(read_head(job.bytes))
}

// Its pins.
fn accepted_pins(job: AcceptedJob) -> Behind
    ensures { (result.pins ≡ pin_count job.entry.bytes.now) × (result.free ≡ free_wagons job.entry.bytes.now) × (result.settings ≡ settings_place job.entry.bytes.now) }
{
    let head = JudgedHead {
        bytes: job.bytes,
        values: accepted_head(job),
    };
    behind_pins(head)
}

// And of its settings. It takes the bytes: that each is below 256, which the limits of two numbers rest on, is known of a slice, not of a struct's.
fn accepted_settings(job: &[u8], at: usize) -> SettingsValues
    requires { (job_number job.now ≡ 0) × (at ≡ settings_place job.now) }
    ensures { (result ≡ settings_values (settings_from job.now (settings_place job.now))) × (result.most < 2 ^ 32) × (result.minimum < 2 ^ 32) }
{
    settings_values(read_settings(job, at))
}

// What they say of the rest: the rank that is meant, the start's doubles from `start` on, and the draw count at `draws`.
#[derive(Drop)]
struct Parts {
    rank: usize,
    start: usize,
    count: usize,
    draws: usize,
}

#[tactic(auto, using(crate::proofs::Accepted::free_few))]
fn parts_of(job: AcceptedJob) -> Parts
    ensures { (result.rank ≡ job_rank job.entry.bytes.now) × (result.start ≡ settings_place job.entry.bytes.now + 36)
        × (result.count ≡ job_start_count job.entry.bytes.now) × (result.draws ≡ draws_place job.entry.bytes.now)
        × (result.rank ≤ most_rank) × (result.count ≤ most_start) }
{
    let b = accepted_pins(job);
    let f = accepted_settings(job.bytes, b.settings);
    let rank = rank_meant(b.free + 1, f.rank as usize);
    // the kind by its code, which is what `start_length` takes of an open too
    let count = start_length(f.start as u8, b.free + 1, rank, f.most as u32);
    Parts {
        rank,
        start: f.next,
        count,
        draws: f.next + count * 8,
    }
}

// The rank that the job's means.
pub fn job_rank(job: AcceptedJob) -> usize
    ensures { (result ≡ job_rank job.entry.bytes.now) × (result ≤ most_rank) }
{
    parts_of(job).rank
}

// How many doubles its start has.
pub fn job_start_count(job: AcceptedJob) -> usize
    ensures { (result ≡ job_start_count job.entry.bytes.now) × (result ≤ most_start) }
{
    parts_of(job).count
}

// The settings.
pub fn job_of(job: AcceptedJob) -> Job
    ensures { values_in result ≡ job_of job.entry.bytes.now }
{
    let head = accepted_head(job);
    let b = accepted_pins(job);
    let f = accepted_settings(job.bytes, b.settings);
    let p = parts_of(job);
    let drawn = field_at(job.bytes, p.draws, DRAW_COUNT);
    Job {
        n: head.n,
        count: head.count,
        pins: b.pins,
        free: b.free,
        rank: f.rank as usize,
        rule: Rule::of(f.rule),
        rule_number: double_of(f.rule_number),
        most: f.most as u32,
        minimum: f.minimum as u32,
        objective_tolerance: double_of(f.objective_tolerance),
        stationarity_tolerance: double_of(f.stationarity_tolerance),
        width: f.width as usize,
        start: Start::of(f.start),
        draw_count: drawn.unwrap_or(0) as usize,
    }
}

// The start's doubles, over the front of the slice.
#[tactic(auto, using(crate::proofs::Accepted::fields))]
pub fn read_start(job: AcceptedJob, start: &mut [f64])
    requires { most_start ≤ length start.old }
    ensures { start.new ≡ fill (job_start job.entry.bytes.now) (job_start_count job.entry.bytes.now) start.old }
{
    let p = parts_of(job);
    read_stored(job.bytes, p.start, p.count, start);
}

// The draws, over the front of the slice: behind their count.
#[tactic(auto, using(crate::proofs::Accepted::fields))]
pub fn read_draws(job: AcceptedJob, draws: &mut [f64])
    requires { most_drawn ≤ length draws.old }
    ensures { draws.new ≡ fill (job_draw job.entry.bytes.now) (job_drawn job.entry.bytes.now) draws.old }
{
    let p = parts_of(job);
    let drawn = field_at(job.bytes, p.draws, DRAW_COUNT);
    let count = drawn.unwrap_or(0) as usize * p.rank;
    read_stored(job.bytes, p.draws + DRAW_COUNT, count, draws);
}

// The states of its wagons, a byte each, over the front of `states`.
#[tactic(auto, using(crate::proofs::Accepted::fields))]
pub fn read_states(job: AcceptedJob, states: &mut [u8])
    requires { most_wagons ≤ length states.old }
    ensures { states.new ≡ over (job_states job.entry.bytes.now) states.old }
{
    let head = accepted_head(job);
    let n = head.n;
    states[..n].fill(FREE);
    if carries_pins(head.version) {
        let _ = pins_number(job.bytes, n, costs_end(n, head.count), &mut states[..n]);
    }
}
