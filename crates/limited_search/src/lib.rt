// The search from a present choice of which at most k wagons are moved (02, Note 13).
#![tactic(auto)]

mod check;
pub mod lent;
mod search;

ghost use Rattle.refusal.specs.Number.{in_numbers};
ghost use Rattle.tables.specs.Lent.{costs_of};
ghost use Rattle.limited_search.specs.Call.{LimitedSearches};

use crate::check::limited_number;
use crate::lent::Request;
use crate::search::search_limited;
use limits::SEARCH_WORKSPACE;
use refusal::Refusal;
use tables::checked::judged_hall;
use tables::lent::LentHall;

// Searches from the first n bytes of the request's present choice, for n wagons, by single wagons, over choices in which at most `most` wagons stand in another
// store than there; the anchor stays. `choice` takes the choice found, a byte 0 or 1 for each wagon; the answer is its cost in eighths and the rounds. The
// workspace holds a level: 1,024 words at least; a longer one keeps its tail.
// A pair, not `Searched`: `LimitedSearches`, which the C interface says word for word, is over the pair.
pub fn limited_search(
    hall: LentHall,
    request: Request,
    choice: &mut [u8],
    workspace: &mut [u64],
) -> Result<(i64, u64), Refusal>
    ensures { let t = costs_of hall.entry in let q = request.entry in LimitedSearches t.n t.count t.rows t.cols t.values t.c q.present.now q.most q.width
        choice.old workspace.old choice.new workspace.new (in_numbers result) }
{
    limited_number(hall, request, choice.len(), workspace.len())?;
    let found = search_limited(
        judged_hall(hall),
        request,
        &mut choice[0..hall.table.size],
        &mut workspace[0..SEARCH_WORKSPACE],
    );
    Ok((found.least, found.rounds))
}
