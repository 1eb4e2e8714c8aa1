// Blocks of wagons searched one after the other, then all wagons that aren't pinned (02, Note 6); a pinned wagon never moves (Note 10).
#![tactic(auto)]

mod blocks; // blocks.rt: the first choice, the blocks in turn, the house
pub mod check; // check.rt: the numbers
pub mod lent; // lent.rt: pins, present choice and blocks as a call is lent them
mod search; // search.rt: one search, all other wagons held

ghost use Rattle.refusal.specs.Number.{numbered};
ghost use Rattle.tables.specs.Lent.{costs_of};
ghost use Rattle.block_search.specs.Call.{BlockSearches};

use crate::blocks::clear_house;
use crate::check::block_number;
use crate::lent::Request;
use limits::SEARCH_WORKSPACE;
use refusal::Refusal;
use tables::entries::Entries;
use tables::judged::JudgedHall;
use tables::lent::LentHall;

// Each block of the request searched in turn, from its present choice with the pinned wagons set to their stores; then all wagons not pinned. A
// pinned wagon that a block names is taken out of it before the search.
// `choice` takes the last choice, `falls` each block's fall in eighths. The workspace has 1,024 words at least; a longer one keeps its tail.
pub fn block_search(
    hall: LentHall,
    request: Request,
    choice: &mut [u8],
    falls: &mut [i64],
    workspace: &mut [u64],
) -> Result<(), Refusal>
    ensures { let t = costs_of hall.entry in let q = request.entry in BlockSearches t.n t.count t.rows t.cols t.values t.c q.pins.wagons.now q.pins.stores.now
        q.present.now q.blocks.sizes.now q.blocks.wagons.now q.width choice.old falls.old workspace.old
        choice.new falls.new workspace.new (numbered result) }
{
    block_number(hall, request, choice.len(), falls.len(), workspace.len())?;
    // No `judged_hall`, which says what table it is: the clauses here speak of its slices. (Tried: `returns` then has no equation for them.)
    let table = Entries {
        count: hall.table.count,
        rows: hall.table.rows,
        cols: hall.table.cols,
        values: hall.table.values,
    };
    let judged = JudgedHall {
        n: hall.table.size,
        table,
        c: hall.c,
    };
    clear_house(
        judged,
        request,
        &mut choice[0..hall.table.size],
        falls,
        &mut workspace[0..SEARCH_WORKSPACE],
    );
    Ok(())
}
