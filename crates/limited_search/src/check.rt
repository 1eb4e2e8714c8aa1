// The numbers of the call: 31, 13 to 16, 27, 28, 19. Nothing is written.
ghost use Rattle.std.specs.Prelude.{◌≡◌, ◌≤◌, length};
ghost use Rattle.refusal.specs.Number.{numbered};
ghost use Rattle.tables.specs.Lent.{costs_of};
ghost use Rattle.limited_search.specs.Numbers.{move_number, call_short, limited_number};

use crate::lent::Request;
use block_search::check::{any_above, bad_width, choices_short};
use limits::{MOST_ENTRIES, SEARCH_WORKSPACE};
use refusal::Refusal;
use tables::check::{hall_number, short_table};
use tables::lent::LentHall;

// 27, 28, 19.
#[tactic(auto, unfolding(crate::specs::Numbers::move_number, laws::specs::Refusal::first, laws::specs::Refusal::or_else))]
fn move_number(n: usize, request: Request) -> Result<(), Refusal>
    requires { n ≤ length request.present.now }
    ensures { let q = request.entry in numbered result ≡ move_number n q.present.now q.most q.width }
{
    if any_above(n, request.present) {
        return Err(Refusal::Present);
    }
    if n < request.most {
        return Err(Refusal::Moves);
    }
    if bad_width(request.width) {
        return Err(Refusal::Search);
    }
    Ok(())
}

// 31.
#[tactic(auto, unfolding(crate::specs::Numbers::call_short, laws::specs::Refusal::any_of, laws::specs::Refusal::short))]
fn call_short(hall: LentHall, present: usize, choice: usize, workspace: usize) -> bool
    ensures { let t = costs_of hall.entry in result ≡ call_short t.n t.count (length t.rows) (length t.cols) (length t.values) (length t.c) present choice workspace }
{
    short_table(MOST_ENTRIES, hall.table)
        || choices_short(hall.table.size, hall.c.len(), present, choice)
        || workspace < SEARCH_WORKSPACE
}

// The first number that applies; the lengths are those of the slices that the call writes.
#[tactic(auto, unfolding(crate::specs::Numbers::limited_number, laws::specs::Refusal::first, laws::specs::Refusal::or_else))]
pub fn limited_number(
    hall: LentHall,
    request: Request,
    choice: usize,
    workspace: usize,
) -> Result<(), Refusal>
    ensures { let t = costs_of hall.entry in let q = request.entry in numbered result ≡ limited_number t.n t.count t.rows t.cols t.values t.c
        q.present.now q.most q.width choice workspace }
{
    if call_short(hall, request.present.len(), choice, workspace) {
        return Err(Refusal::Slice);
    }
    hall_number(hall)?;
    move_number(hall.table.size, request)
}
