// The run of an accepted job: its open, a sweep up to its most, its finish; on the free wagons where wagons are pinned.
// Arrays have a fixed size: no heap, a rule of the project (limits/src/lib.rt).
ghost use Rattle.std.specs.Prelude.{◌≡◌, ◌≤◌, ◌<◌, length, take};
ghost use Rattle.tables.specs.CostTable.{cost_table};
ghost use Rattle.tables.specs.Lent.{costs_of};
ghost use Rattle.tables.specs.Stored.{Room};
ghost use Rattle.tables.specs.Table.{Lent};
ghost use Rattle.limits.specs.Limits.{most_wagons, most_entries, most_signs, most_drawn};
ghost use Rattle.run_contract.specs.PlainRun.{record_of};
ghost use Rattle.job_record.specs.Number.{job_number};
ghost use Rattle.job_record.specs.Values.{job_states, values_in, job_of, job_drawn};
ghost use Rattle.record_call.specs.Record.{run_costs, job_draws, stopped, fields_of};
ghost use Rattle.record_call.specs.Decoded.{Decoded, AtFronts, OwnCosts, RoomFor, factor_size, RunFinished, JobAnswered, FreeRun, FiguresFit};

use answer_record::answer::Answer;
use job_record::job::{
    AcceptedJob, Job, job_of, job_rank, job_start_count, read_draws, read_start, read_states,
};
use job_record::pins::FREE;
use limits::{MOST_DRAWN, MOST_ENTRIES, MOST_FACTOR, MOST_SIGNS, MOST_START, MOST_WAGONS};
use pinned::lift::lift_choice;
use pinned::reduce::reduce;
use run_contract::FinishResult;
use run_limits::Draws;
use run_record::{OpenSettings, Run};
use sdp_solver::finish::finish_accepted;
use sdp_solver::open::open_accepted;
use sdp_solver::sweep::sweep_accepted;
use tables::checked::judged_hall;
use tables::lent::{LentHall, LentTable};

// Entries of a table for which small arrays do.
const FEW_ENTRIES: usize = 256;

// An accepted job, its settings, and H and c as it has them.
#[derive(Clone, Copy)]
struct OwnJob<'a> {
    record: AcceptedJob<'a>,
    settings: Job,
    hall: LentHall<'a>,
    ghost own: { OwnCosts record.bytes.now settings (costs_of hall) },
}

// The same with the (H, c) of its run, and the start's numbers.
#[derive(Clone, Copy)]
struct RunJob<'a> {
    record: AcceptedJob<'a>,
    settings: Job,
    hall: LentHall<'a>,
    start: &'a [f64],
    ghost decoded: { Decoded record.bytes.now settings (costs_of hall) start.now },
}

// A job with pins, and the states of its wagons.
#[derive(Clone, Copy)]
struct PinnedJob<'a> {
    own: OwnJob<'a>,
    states: &'a [u8],
    ghost states_are: { states.now ≡ job_states own.record.bytes.now },
}

// (H, c) at the fronts of slices, cut from there.
fn cut_hall(hall: LentHall) -> LentHall
    requires { let t = hall.table in Lent t.count t.rows.now t.cols.now t.values.now × (t.size ≤ length hall.c.now) }
    ensures { let t = hall.entry.table in costs_of result ≡ cost_table t.size t.count (take t.count t.rows.now) (take t.count t.cols.now) (take t.count t.values.now) (take t.size hall.entry.c.now) }
{
    let t = hall.table;
    LentHall {
        table: LentTable {
            rows: &t.rows[..t.count],
            cols: &t.cols[..t.count],
            values: &t.values[..t.count],
            ..t
        },
        c: &hall.c[..t.size],
    }
}

// The job's open and, where its most is above 0, a sweep up to the most. The settings are copied field by field: a `From` between job_record's Job and run_record's OpenSettings would be
// an orphan impl here, and neither of these two crates has the other below it.
fn run_job(job: RunJob, factor: &mut [f64]) -> Run
    requires { length factor.old ≡ factor_size job.record.bytes.now }
    ensures { let s = job.entry.record.bytes.now in (result ≡ record_of (stopped (run_costs s) s)) × (factor.new ≡ (stopped (run_costs s) s).factor) }
{
    let j = job.settings;
    let run = open_accepted(
        job.hall,
        OpenSettings {
            rank: j.rank,
            rule: j.rule.code(),
            number: j.rule_number,
            most: j.most,
            minimum: j.minimum,
            objective_tolerance: j.objective_tolerance,
            stationarity_tolerance: j.stationarity_tolerance,
            start: j.start.code(),
        },
        job.start,
        factor,
    );
    if j.most == 0 {
        return run;
    }
    sweep_accepted(run, job.hall, j.most, factor)
}

// The run, and its finish; the factor is of the run's size.
fn finish_run(
    job: RunJob,
    draws: &[f64],
    factor: &mut [f64],
    b: &mut [u8],
    dual: &mut [f64],
    workspace: &mut [u64],
) -> FinishResult
    requires { (draws.now ≡ job_draws job.record.bytes.now)
        × (length factor.old ≡ factor_size job.record.bytes.now) × (most_signs ≤ length dual.old) × RoomFor b.old workspace.old }
    ensures { RunFinished job.entry.record.bytes.now b.old result b.new }
{
    let j = job.settings;
    let run = run_job(job, factor);
    finish_accepted(
        run,
        job.hall,
        j.width,
        Draws {
            count: j.draw_count,
            numbers: draws,
        },
        factor,
        b,
        dual,
        workspace,
    )
}

// The same, with room for the factor and the multipliers.
fn finish_job(job: RunJob, draws: &[f64], b: &mut [u8], workspace: &mut [u64]) -> FinishResult
    requires { (draws.now ≡ job_draws job.record.bytes.now) × RoomFor b.old workspace.old }
    ensures { RunFinished job.entry.record.bytes.now b.old result b.new }
{
    let mut factor = [0.0f64; MOST_FACTOR];
    let mut dual = [0.0f64; MOST_SIGNS];
    let j = job.settings;
    let rank = job_rank(job.record);
    let used = (j.free + 1) * rank;
    finish_run(job, draws, &mut factor[..used], b, &mut dual, workspace)
}

// How many numbers the draws have.
fn drawn_numbers(job: AcceptedJob, draw_count: usize) -> usize
    requires { draw_count ≡ (job_of job.bytes.now).draw_count }
    ensures { (result ≡ job_drawn job.entry.bytes.now) × (result ≤ most_drawn) }
{
    let rank = job_rank(job);
    draw_count * rank
}

// The fields of an answer: n of all wagons, the constant added. Field by field: in 01 they stand in another order and with narrower numbers than the result of a finish.
// Rank and n are below 256, so `as` loses nothing: a `try_from` would need a number to give where it fails, which it never does.
fn fields_of(n: usize, constant: i64, x: FinishResult) -> Answer
    requires { (n < 256) × (x.rank < 256) × FiguresFit constant x }
    ensures { result ≡ fields_of n constant x }
{
    Answer {
        status: x.status,
        rank: x.rank as u8,
        n: n as u8,
        sweeps: x.sweeps,
        relaxed_objective: x.relaxed_objective,
        float_bound: x.float_bound,
        floor: x.floor + constant,
        rounded_cost: x.rounded_cost + constant,
        cost: x.cost + constant,
        rounds: x.rounds,
    }
}

// The finish of an accepted job over the (H, c) of its run: start and draws are read. Job, settings and (H, c) stay apart: both callers hand over an (H, c) of their
// own, and the RunJob that holds the three with the start is made here.
fn finish_read(
    job: AcceptedJob,
    j: Job,
    hall: LentHall,
    b: &mut [u8],
    workspace: &mut [u64],
) -> FinishResult
    requires { (values_in j ≡ job_of job.bytes.now) × (costs_of hall ≡ run_costs job.bytes.now) × RoomFor b.old workspace.old }
    ensures { RunFinished job.entry.bytes.now b.old result b.new }
{
    let mut start = [0.0f64; MOST_START];
    let mut draws = [0.0f64; MOST_DRAWN];
    read_start(job, &mut start);
    read_draws(job, &mut draws);
    let numbers = job_start_count(job);
    let drawn = drawn_numbers(job, j.draw_count);
    let decoded = RunJob {
        record: job,
        settings: j,
        hall,
        start: &start[..numbers],
    };
    finish_job(decoded, &draws[..drawn], b, workspace)
}

// The fields of a job with pins: H and c are reduced into the slices `to_rows` to `to_c`, where the run is; the free wagons and their choice go over the
// fronts of `free` and `chosen`.
// `to_rows` to `to_c` stay apart, and in the whole file so do the slices for a choice (`b`, or `free` and `chosen`) and the workspace, though `RoomFor` speaks of two of them: a struct of
// `&mut`s adds a clause on the ghost name of each (tried on `put_slot` of reduced), and `reduce` and `finish_accepted` take them apart too.
fn finish_reduced<'a>(
    pinned: PinnedJob,
    free: &mut [u16],
    chosen: &mut [u8],
    workspace: &mut [u64],
    to_rows: &'a mut [u16],
    to_cols: &'a mut [u16],
    to_values: &'a mut [i64],
    to_c: &'a mut [i64],
) -> Answer
    requires { (most_wagons ≤ length free.old) × RoomFor chosen.old workspace.old
        × Room 0 pinned.own.hall.table.count to_rows.old to_cols.old to_values.old × (most_wagons ≤ length to_c.old) }
    ensures { FreeRun pinned.entry.own.record.bytes.now free.old chosen.old result free.new chosen.new }
{
    let job = pinned.own;
    let j = job.settings;
    let t = reduce(
        judged_hall(job.hall),
        pinned.states,
        free,
        to_rows,
        to_cols,
        to_values,
        to_c,
    );
    let made = LentHall {
        table: LentTable {
            size: t.free,
            count: t.count,
            rows: to_rows,
            cols: to_cols,
            values: to_values,
        },
        c: to_c,
    };
    let x = finish_read(job.record, j, cut_hall(made), chosen, workspace);
    fields_of(j.n, t.constant, x)
}

// The same in arrays of their own, for N entries.
fn finish_within<const N: usize>(
    pinned: PinnedJob,
    free: &mut [u16],
    chosen: &mut [u8],
    workspace: &mut [u64],
) -> Answer
    requires { (most_wagons ≤ length free.old) × RoomFor chosen.old workspace.old × (pinned.own.hall.table.count ≤ N) × (N ≤ most_entries) }
    ensures { FreeRun pinned.entry.own.record.bytes.now free.old chosen.old result free.new chosen.new }
{
    let mut to_rows = [0u16; N];
    let mut to_cols = [0u16; N];
    let mut to_values = [0i64; N];
    let mut to_c = [0i64; MOST_WAGONS];
    finish_reduced(
        pinned,
        free,
        chosen,
        workspace,
        &mut to_rows,
        &mut to_cols,
        &mut to_values,
        &mut to_c,
    )
}

// The same in arrays of the least size that does: a table of few entries takes small ones, which take no time to clear.
fn finish_pinned(
    pinned: PinnedJob,
    free: &mut [u16],
    chosen: &mut [u8],
    workspace: &mut [u64],
) -> Answer
    requires { (most_wagons ≤ length free.old) × RoomFor chosen.old workspace.old }
    ensures { FreeRun pinned.entry.own.record.bytes.now free.old chosen.old result free.new chosen.new }
{
    let hall = pinned.own.hall;
    if hall.table.count <= FEW_ENTRIES {
        finish_within::<FEW_ENTRIES>(pinned, free, chosen, workspace)
    } else {
        finish_within::<MOST_ENTRIES>(pinned, free, chosen, workspace)
    }
}

// The answer of a job with pins: its fields, and over the front of b the choice of the free wagons with the pinned ones in their stores.
fn pinned_answer(job: OwnJob, b: &mut [u8], workspace: &mut [u64]) -> Answer
    requires { RoomFor b.old workspace.old }
    ensures { JobAnswered job.entry.record.bytes.now b.old result b.new }
{
    let mut states = [FREE; MOST_WAGONS];
    let mut free = [0u16; MOST_WAGONS];
    let mut chosen = [0u8; MOST_WAGONS];
    let j = job.settings;
    let n = j.n;
    let some = j.free;
    read_states(job.record, &mut states);
    let pinned = PinnedJob {
        own: job,
        states: &states[..n],
    };
    let fields = finish_pinned(pinned, &mut free, &mut chosen, workspace);
    lift_choice(n, &states[..n], &free[..some], &chosen, b);
    fields
}

// The answer over H and c; where no wagon is pinned the run is on them as they are.
fn costs_answer(job: OwnJob, b: &mut [u8], workspace: &mut [u64]) -> Answer
    requires { RoomFor b.old workspace.old }
    ensures { JobAnswered job.entry.record.bytes.now b.old result b.new }
{
    let j = job.settings;
    if j.pins != 0 {
        return pinned_answer(job, b, workspace);
    }
    let x = finish_read(job.record, j, job.hall, b, workspace);
    fields_of(j.n, 0, x)
}

// The answer of an accepted job, whose H and c stand at the fronts of the slices: its fields, and the choice of all wagons over the front of b.
pub fn job_answer<'a>(
    job: &'a [u8],
    rows: &'a [u16],
    cols: &'a [u16],
    values: &'a [i64],
    c: &'a [i64],
    b: &mut [u8],
    workspace: &mut [u64],
) -> Answer
    requires { AtFronts job.now rows.now cols.now values.now c.now × RoomFor b.old workspace.old }
    ensures { JobAnswered job.now b.old result b.new }
{
    let record = AcceptedJob { bytes: job };
    let j = job_of(record);
    let stored = LentHall {
        table: LentTable {
            size: j.n,
            count: j.count,
            rows,
            cols,
            values,
        },
        c,
    };
    let own = OwnJob {
        record,
        settings: j,
        hall: cut_hall(stored),
    };
    costs_answer(own, b, workspace)
}
