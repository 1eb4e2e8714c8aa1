// 31: which of a call's slices is too short. A length that rests on a refused number isn't tested.
ghost use Rattle.std.specs.Prelude.{◌≡◌};
ghost use Rattle.run_record.specs.Lengths.{lengths_of};
ghost use Rattle.run_record.specs.Numbers.{table_short, factor_short, sweep_short, draws_short, choice_short, finish_short, open_rank_refused, start_short, open_factor_short, open_short};
ghost use Rattle.tables.specs.Lent.{costs_of};

use super::{OpenSettings, RANKED, Run};
use limits::{LAST_START, MOST_RANK, SEARCH_WORKSPACE};
use run_limits::{bad_draws, rank_meant, start_length};
use tables::check::short_hall as table_short;
use tables::lent::LentHall;

// 31 of the factor.
#[tactic(auto, unfolding(crate::specs::Numbers::factor_short, crate::specs::Numbers::factor_refused, laws::specs::Refusal::any_of, laws::specs::Refusal::short))]
fn factor_short(n: usize, size: usize, rank: usize, lent: usize) -> bool
    ensures { result ≡ factor_short n size rank lent }
{
    if limits::MOST_WAGONS < n {
        return false;
    }
    if size != n + 1 {
        return false;
    }
    if rank == 0 {
        return false;
    }
    if MOST_RANK < rank {
        return false;
    }
    lent < size * rank
}

// 31 of a sweep's slices.
#[tactic(auto, unfolding(crate::specs::Numbers::sweep_short, laws::specs::Refusal::any_of))]
pub fn sweep_short(run: Run, hall: LentHall, factor: usize) -> bool
    ensures { result ≡ sweep_short run (costs_of hall.entry) factor }
{
    if table_short(hall) {
        return true;
    }
    factor_short(hall.table.size, run.size, run.rank, factor)
}

// The lengths of the slices that a finish is lent. The count of draws stays beside them, no `Draws`: numbers are judged by lengths alone.
#[derive(Clone, Copy)]
pub struct FinishSlices {
    pub draws: usize,
    pub factor: usize,
    pub b: usize,
    pub dual: usize,
    pub workspace: usize,
}

// 31 of the draws.
#[tactic(auto, unfolding(crate::specs::Numbers::draws_short, run_limits::specs::Draws::bad_draws, laws::specs::Refusal::any_of, laws::specs::Refusal::short))]
fn draws_short(rank: usize, draw_count: usize, draws: usize) -> bool
    ensures { result ≡ draws_short rank draw_count draws }
{
    if bad_draws(draw_count) {
        return false;
    }
    if rank == 0 {
        return false;
    }
    if MOST_RANK < rank {
        return false;
    }
    draws < draw_count * rank
}

// 31 of the choice and the multipliers.
#[tactic(auto, unfolding(crate::specs::Numbers::choice_short, laws::specs::Refusal::any_of, laws::specs::Refusal::short))]
fn choice_short(n: usize, b: usize, dual: usize) -> bool
    ensures { result ≡ choice_short n b dual }
{
    if limits::MOST_WAGONS < n {
        return false;
    }
    if b < n {
        return true;
    }
    dual < n + 1
}

// 31 of a finish's slices.
#[tactic(auto, unfolding(crate::specs::Numbers::finish_short, laws::specs::Refusal::any_of))]
pub fn finish_short(run: Run, hall: LentHall, draw_count: usize, lent: FinishSlices) -> bool
    ensures { result ≡ finish_short run (costs_of hall.entry) draw_count (lengths_of lent) }
{
    if table_short(hall) {
        return true;
    }
    if draws_short(run.rank, draw_count, lent.draws) {
        return true;
    }
    if factor_short(hall.table.size, run.size, run.rank, lent.factor) {
        return true;
    }
    if choice_short(hall.table.size, lent.b, lent.dual) {
        return true;
    }
    lent.workspace < SEARCH_WORKSPACE
}

// Whether 17 refuses the rank of an open.
#[tactic(auto, unfolding(crate::specs::Numbers::open_rank_refused))]
pub fn open_rank_refused(rank: usize, start: u8) -> bool
    ensures { result ≡ open_rank_refused rank start }
{
    MOST_RANK < rank || rank == 0 && start == RANKED
}

// 31 of the start's numbers.
#[tactic(auto, unfolding(crate::specs::Numbers::start_short, laws::specs::Refusal::any_of, laws::specs::Refusal::short), using(crate::proofs::Ranked::taken_low))]
fn start_short(n: usize, asked: OpenSettings, numbers: usize) -> bool
    ensures { result ≡ start_short n asked.rank asked.most asked.start numbers }
{
    if limits::MOST_WAGONS < n {
        return false;
    }
    if open_rank_refused(asked.rank, asked.start) {
        return false;
    }
    if LAST_START < usize::from(asked.start) {
        return false;
    }
    let meant = rank_meant(n + 1, asked.rank);
    numbers < start_length(asked.start, n + 1, meant, asked.most)
}

// 31 of the factor that an open writes.
#[tactic(auto, unfolding(crate::specs::Numbers::open_factor_short, laws::specs::Refusal::any_of, laws::specs::Refusal::short), using(crate::proofs::Ranked::taken_low))]
fn open_factor_short(n: usize, asked: OpenSettings, factor: usize) -> bool
    ensures { result ≡ open_factor_short n asked.rank asked.start factor }
{
    if limits::MOST_WAGONS < n {
        return false;
    }
    if open_rank_refused(asked.rank, asked.start) {
        return false;
    }
    let meant = rank_meant(n + 1, asked.rank);
    factor < (n + 1) * meant
}

// 31 of an open's slices.
#[tactic(auto, unfolding(crate::specs::Numbers::open_short, laws::specs::Refusal::any_of))]
pub fn open_short(hall: LentHall, asked: OpenSettings, numbers: usize, factor: usize) -> bool
    ensures { result ≡ open_short (costs_of hall.entry) asked.rank asked.most asked.start numbers factor }
{
    if table_short(hall) {
        return true;
    }
    if start_short(hall.table.size, asked, numbers) {
        return true;
    }
    open_factor_short(hall.table.size, asked, factor)
}
