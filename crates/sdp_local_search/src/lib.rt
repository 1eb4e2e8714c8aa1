// `beam_search` of sdp_local_search.rs as a call on a sign table given directly, in whole eighths.
#![tactic(auto)]

mod check;
mod signs;

ghost use Rattle.refusal.specs.Number.{in_numbers};
ghost use Rattle.sdp_local_search.specs.BeamSearch.{base_limits};
ghost use Rattle.sdp_local_search.specs.Call.{BeamSearches};

use crate::check::search_refusal;
use crate::signs::search_from;
use limits::SEARCH_WORKSPACE;
use refusal::Refusal;
use sign_search::search::Searched;
use tables::lent::LentTable;

// 01's local search from the first signs of `start`, as many as the table has; any byte but 0 is −. The signs of the answer go to `out`, as 0 and 1;
// its objective in eighths and the rounds are answered.
// The workspace holds a level: 1,024 words at least; a longer one keeps its tail.
#[tactic(auto, using(crate::proofs::Numbers::call_ready))]
pub fn beam_search(
    table: LentTable,
    width: usize,
    start: &[u8],
    out: &mut [u8],
    workspace: &mut [u64],
) -> Result<Searched, Refusal>
    ensures { let t = table.entry in BeamSearches base_limits t.size t.count t.rows.now t.cols.now t.values.now width start.now out.old
        workspace.old out.new workspace.new (in_numbers result) }
{
    let entries = search_refusal(table, width, start.len(), out.len(), workspace.len())?;
    let found = search_from(
        entries,
        width,
        start,
        &mut out[0..table.size],
        &mut workspace[0..SEARCH_WORKSPACE],
    );
    Ok(found)
}
