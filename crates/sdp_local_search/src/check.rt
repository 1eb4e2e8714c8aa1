// What the call refuses: 31, 13 to 16, 19. Nothing is written.
ghost use Rattle.std.specs.Prelude.{◌≡◌, length};
ghost use Rattle.std.specs.Result.{IfOk};
ghost use Rattle.tables.specs.Entries.{listed};
ghost use Rattle.tables.specs.Lent.{lent_table};
ghost use Rattle.refusal.specs.Number.{numbered};
ghost use Rattle.sdp_local_search.specs.BeamSearch.{base_limits, search_short, search_refusal};

use limits::{MOST_SIGN_ENTRIES, MOST_SIGNS, MOST_WIDTH, SEARCH_WORKSPACE};
use refusal::Refusal;
use tables::check::{short_table, too_short};
use tables::checked::checked_table;
use tables::entries::Entries;
use tables::lent::LentTable;

// 31: a slice is too short; the lengths are those of the slices behind the table's.
#[tactic(auto, unfolding(crate::specs::BeamSearch::search_short, laws::specs::Refusal::any_of))]
fn search_short(table: LentTable, start: usize, out: usize, workspace: usize) -> bool
    ensures { let t = table.entry in result ≡ search_short base_limits t.size t.count (length t.rows.now) (length t.cols.now) (length t.values.now) start out workspace }
{
    short_table(MOST_SIGN_ENTRIES, table)
        || too_short(MOST_SIGNS < table.size, table.size, start)
        || too_short(MOST_SIGNS < table.size, table.size, out)
        || too_short(false, SEARCH_WORKSPACE, workspace)
}

// The entries of a table that no number refuses; the lengths are those of the other slices.
#[tactic(auto, unfolding(crate::specs::BeamSearch::search_refusal, laws::specs::Refusal::first, laws::specs::Refusal::or_else), using(crate::proofs::Numbers::search_lent))]
pub fn search_refusal(
    table: LentTable,
    width: usize,
    start: usize,
    out: usize,
    workspace: usize,
) -> Result<Entries, Refusal>
    ensures number { let t = table.entry in numbered result ≡ search_refusal base_limits t.size width
        (search_short base_limits t.size t.count (length t.rows.now) (length t.cols.now) (length t.values.now) start out workspace)
        (lent_table t) }
    ensures entries { IfOk result (λ e. listed e ≡ lent_table table.entry) }
{
    let entries = checked_table(search_short(table, start, out, workspace), table)?;
    if MOST_WIDTH < width {
        return Err(Refusal::Search);
    }
    Ok(entries)
}
