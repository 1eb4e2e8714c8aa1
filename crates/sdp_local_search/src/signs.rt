// The search of an accepted call.
ghost use Rattle.std.specs.Prelude.{◌≡◌, ◌≤◌, length};
ghost use Rattle.limits.specs.Limits.{most_signs, most_words};
ghost use Rattle.sign_search.specs.Clauses.{Sound, LevelRoom, Found-by};
ghost use Rattle.sdp_local_search.specs.BeamSearch.{sign_bytes};
ghost use Rattle.tables.specs.Entries.{listed};

use sign_search::search::{Searched, search_signs};
use sign_words::pack::sign_digit;
use tables::entries::Entries;

// The first signs of `start`, as many as `kept` holds, each as 0 or 1.
#[tactic(auto, unfolding(laws::specs::Lists::tabulate))]
fn read_signs(start: &[u8], kept: &mut [u8])
    requires { length kept.old ≤ length start.now }
    ensures { kept.new ≡ sign_bytes (length kept.old) start.now }
{
    for i in 0..kept.len() {
        kept[i] = sign_digit(start[i]);
    }
}

// Searches from the first signs of `start`, as many as `kept` holds, which takes the answer's.
#[tactic(auto, using(crate::proofs::Calls::bytes_binary))]
pub fn search_from(
    table: Entries,
    width: usize,
    start: &[u8],
    kept: &mut [u8],
    workspace: &mut [u64],
) -> Searched
    requires { LevelRoom most_signs most_words (length kept.old) width (length workspace.old) × Sound (length kept.old) (listed table) × (length kept.old ≤ length start.now) }
    ensures { Found-by (listed table.entry) width
        (sign_bytes (length kept.old) start.now) result.least result.rounds kept.new }
{
    read_signs(start, kept);
    search_signs(table, width, kept, workspace)
}
