// The sweep call: up to k sweeps over the (H, c) given.
// Arrays have a fixed size: no heap, a rule of the project (limits/src/lib.rt).
ghost use Rattle.std.specs.Prelude.{◌≡◌, ◌+◌, ◌*◌, ◌≤◌, length};
ghost use Rattle.std.specs.Result.{result_unwrap_or};
ghost use Rattle.limits.specs.Limits.{most_signs, most_rank};
ghost use Rattle.refusal.specs.Number.{numbered};
ghost use Rattle.factor.specs.Shapes.{Shaped, ObjFits};
ghost use Rattle.run_sweep.specs.Work.{work_in, call_work};
ghost use Rattle.run_sweep.specs.Running.{Running};
ghost use Rattle.run_sweep.specs.Sweep.{sweeps_up_to};
ghost use Rattle.run_contract.specs.Calls.{Sweeps};
ghost use Rattle.sdp_solver.specs.Usable.{Usable};
ghost use Rattle.tables.specs.Lent.{costs_of};

use super::work::call_work;
use factor::table::Prepared;
use finalize::room;
use prepared_table::made::PreparedTable;
use refusal::Refusal;
use run_record::Run;
use run_record::numbers::sweep_number;
use run_sweep::sweeps_up_to;
use tables::checked::judged_hall;
use tables::lent::LentHall;

// Up to k sweeps over a prepared table, with room for what a sweep and its check work on. `Running run` stays a clause (run_sweep/src/lib.rt says why).
fn sweep_work(run: Run, table: Prepared, k: u32, factor: &mut [f64]) -> Run
    requires running { Running run × (run.size ≤ most_signs) × (1 ≤ run.size) × (run.rank ≤ most_rank) }
    requires shaped { Shaped table.cols.now table.values.now table.starts.now factor.old run.size run.rank × ObjFits table.rows.now table.cols.now table.values.now run.rank (run.size * run.rank) }
    ensures { (result ≡ (sweeps_up_to k (work_in table.entry) run factor.old).run)
        × (factor.new ≡ (sweeps_up_to k (work_in table.entry) run factor.old).factor) }
{
    let mut product = room::rows_of_sums();
    let mut moved = room::rows_of_numbers();
    let mut dual = room::numbers();
    let m = run.size;
    let size = m * run.rank;
    sweeps_up_to(
        run,
        table,
        k,
        factor,
        &mut product[..size],
        &mut moved[..size],
        &mut dual[..m],
    )
}

// Up to k sweeps over (H, c) of a factor of m rows, where nothing refuses them.
pub fn sweep_accepted(run: Run, hall: LentHall, k: u32, factor: &mut [f64]) -> Run
    requires { Usable (costs_of hall) × Running run × (run.size ≡ hall.table.size + 1) × (run.rank ≤ most_rank) × (length factor.old ≡ run.size * run.rank) }
    ensures { (result ≡ (sweeps_up_to k (call_work (costs_of hall.entry)) run factor.old).run)
        × (factor.new ≡ (sweeps_up_to k (call_work (costs_of hall.entry)) run factor.old).factor) }
{
    let mut work = PreparedTable::new();
    call_work(judged_hall(hall), &mut work);
    sweep_work(run, work.table(), k, factor)
}

// The sweep call by value: the record after it.
#[tactic(auto, using(run_contract::proofs::Accepting::sweep_accepted))]
pub fn sweep_run(run: Run, hall: LentHall, k: u32, factor: &mut [f64]) -> Result<Run, Refusal>
    ensures { Sweeps run (costs_of hall.entry) k factor.old (numbered result) (result_unwrap_or result run) factor.new }
{
    sweep_number(run, hall, factor.len())?;
    let used = run.size * run.rank;
    Ok(sweep_accepted(run, hall, k, &mut factor[..used]))
}

// The sweep call on the caller's own record.
pub fn sweep(run: &mut Run, hall: LentHall, k: u32, factor: &mut [f64]) -> Result<(), Refusal>
    ensures { Sweeps run.old (costs_of hall.entry) k factor.old
        (numbered result) run.new factor.new }
{
    *run = sweep_run(*run, hall, k, &mut *factor)?;
    Ok(())
}
