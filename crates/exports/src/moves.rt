// At most k wagons moved.
ghost use Rattle.limited_search.specs.Call.{LimitedSearches};
ghost use Rattle.exports.specs.Answers.{by_number, Stays};

use crate::answers::hand_both;
use crate::lent::lent_hall;
use limited_search::lent::Request;
use limited_search::limited_search;

#[unsafe(no_mangle)]
pub extern "C" fn wagonplan_raw_limited_search(
    n: usize,
    count: usize,
    rows: &[u16],
    cols: &[u16],
    values: &[i64],
    c: &[i64],
    present: &[u8],
    k: usize,
    width: usize,
    choice: &mut [u8],
    workspace: &mut [u64],
    cost: &mut i64,
    rounds: &mut u64,
) -> u8
    ensures limited_searches { LimitedSearches n count rows.now cols.now values.now c.now present.now k width choice.old workspace.old
        choice.new workspace.new (by_number result (cost.new, rounds.new)) }
    ensures stays { Stays result cost.old cost.new × Stays result rounds.old rounds.new }
{
    let hall = lent_hall(n, count, rows, cols, values, c);
    let request = Request {
        present,
        most: k,
        width,
    };
    let searched = limited_search(hall, request, choice, workspace);
    hand_both(searched, cost, rounds)
}
