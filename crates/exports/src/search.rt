// The search.
ghost use Rattle.sdp_local_search.specs.BeamSearch.{base_limits};
ghost use Rattle.sdp_local_search.specs.Call.{BeamSearches};
ghost use Rattle.exports.specs.Answers.{by_number, Stays};

use crate::answers::hand_both;
use crate::lent::lent_table;
use sdp_local_search::beam_search;

#[unsafe(no_mangle)]
pub extern "C" fn wagonplan_raw_beam_search(
    m: usize,
    count: usize,
    rows: &[u16],
    cols: &[u16],
    values: &[i64],
    width: usize,
    start: &[u8],
    out: &mut [u8],
    workspace: &mut [u64],
    objective: &mut i64,
    rounds: &mut u64,
) -> u8
    ensures beam_searches { BeamSearches base_limits m count rows.now cols.now values.now width start.now out.old workspace.old
        out.new workspace.new (by_number result (record { least = objective.new; rounds = rounds.new })) }
    ensures stays { Stays result objective.old objective.new × Stays result rounds.old rounds.new }
{
    let table = lent_table(m, count, rows, cols, values);
    let searched = beam_search(table, width, start, out, workspace);
    let told = searched.map(|found| (found.least, found.rounds));
    hand_both(told, objective, rounds)
}
