// The open call: the start's factor, and the record of a run over it.
ghost use Rattle.std.specs.Prelude.{◌≡◌, ◌+◌, ◌*◌, length, Ok};
ghost use Rattle.refusal.specs.Number.{in_numbers};
ghost use Rattle.maxcut_oracle.specs.Table.{work_objective};
ghost use Rattle.run_sweep.specs.Work.{sign_table_of};
ghost use Rattle.run_contract.specs.Calls.{first_stage, asked_of, open_number_of, Opens};
ghost use Rattle.sdp_solver.specs.Usable.{costs_in};
ghost use Rattle.tables.specs.Lent.{costs_of};

use super::work::call_work;
use initialize::prepare_initial_factor;
use maxcut_oracle::objective::obj;
use prepared_table::made::PreparedTable;
use refusal::Refusal;
use run_limits::{rank_meant, start_of};
use run_record::numbers::open_number;
use run_record::{OpenSettings, Run, Stage};
use step_rules::rule_of;
use tables::checked::judged_hall;
use tables::judged::JudgedHall;
use tables::lent::LentHall;

// The stage of a new run: stopped where no sweep is allowed.
#[tactic(auto, unfolding(run_contract::specs::Calls::first_stage))]
fn first_stage(most: u32) -> Stage
    ensures { result ≡ first_stage most }
{
    if most == 0 {
        Stage::Stopped
    } else {
        Stage::Open
    }
}

// The objective of the start, its diagonal left out.
fn first_objective(hall: JudgedHall, rank: usize, factor: &[f64]) -> f64
    requires { length factor.now ≡ (hall.n + 1) * rank }
    ensures { result ≡ work_objective (sign_table_of (costs_in hall.entry)) rank factor.now }
{
    let mut work = PreparedTable::new();
    call_work(hall, &mut work);
    obj(work.table(), factor, rank)
}

// Opens a run that nothing refuses; the factor takes m rows of the rank that is meant. The limits are copied one by one (run_record/src/lib.rt says why).
pub fn open_accepted(
    hall: LentHall,
    asked: OpenSettings,
    numbers: &[f64],
    factor: &mut [f64],
) -> Run
    requires { open_number_of (asked_of (costs_of hall) asked numbers.now) (length factor.old) ≡ 0 }
    ensures { Opens (asked_of (costs_of hall.entry) asked numbers.now)
        factor.old (Ok result) factor.new }
{
    let size = hall.table.size + 1;
    let meant = rank_meant(size, asked.rank);
    let used = size * meant;
    prepare_initial_factor(
        start_of(asked.start, asked.most, meant),
        numbers,
        meant,
        size,
        factor,
    );
    let judged = judged_hall(hall);
    let last_objective = first_objective(judged, meant, &factor[..used]);
    let step = rule_of(asked.rule, asked.number);
    let stage = first_stage(asked.most);
    Run {
        size,
        rank: meant,
        rule: step,
        sweeps: 0,
        last_objective,
        objective_tolerance: asked.objective_tolerance,
        stationarity_tolerance: asked.stationarity_tolerance,
        most: asked.most,
        minimum: asked.minimum,
        stage,
        status: 0,
        standing: 0,
    }
}

// Opens a run; `numbers` are the start's.
pub fn open(
    hall: LentHall,
    asked: OpenSettings,
    numbers: &[f64],
    factor: &mut [f64],
) -> Result<Run, Refusal>
    ensures { Opens (asked_of (costs_of hall.entry) asked numbers.now)
        factor.old (in_numbers result) factor.new }
{
    open_number(hall, asked, numbers.len(), factor.len())?;
    Ok(open_accepted(hall, asked, numbers, factor))
}
