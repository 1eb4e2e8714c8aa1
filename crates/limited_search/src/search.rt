// The search of an accepted call.
// Arrays have a fixed size: no heap, a rule of the project (limits/src/lib.rt).
ghost use Rattle.std.specs.Prelude.{◌≡◌, suc, ◌≤◌, length};
ghost use Rattle.laws.specs.Lists.{elem_z};
ghost use Rattle.sign_table.specs.SignTable.{sign_table};
ghost use Rattle.limited_search.specs.Search.{present_signs, SearchFits, Leaves};
ghost use Rattle.tables.specs.Entries.{listed};

use crate::lent::Request;
use limits::MOST_SIGNS;
use sign_search::search::{Searched, search_within};
use sign_search::within::Leeway;
use sign_table::made::SignTable;
use slices::copy;
use tables::judged::JudgedHall;
use tables::objective::qubo_binary_from_sign_solution;

// The first n bytes of the present choice, then the anchor's, which is +.
#[tactic(auto, using(crate::proofs::Starts::signs_copied, crate::proofs::Starts::signs_made))]
fn start_signs(n: usize, present: &[u8], signs: &mut [u8])
    requires { (n ≤ length present.now) × (length signs.old ≡ suc n) }
    ensures { signs.new ≡ present_signs n present.now }
{
    copy(&mut signs[..n], &present[..n]);
    signs[n] = 0;
}

// The search on the sign table of (H, c), which is made; `found` takes what the answer decodes to.
// Not one function with `search_reduced` of `block_search`: they share four lines, which make the table and decode the answer. The start, whether it is weighed
// and how far the search goes differ, and would be parameters of a function with both contracts' clauses.
#[tactic(auto, using(tables::proofs::Checks::hall_accepted))]
pub fn search_limited(
    hall: JudgedHall,
    request: Request,
    found: &mut [u8],
    workspace: &mut [u64],
) -> Searched
    requires { SearchFits hall.n request.present.now request.width (length found.old) (length workspace.old) }
    ensures { let h = hall.entry in let q = request.entry in Leaves (sign_table h.n (listed h.table) (elem_z h.c.now)) h.n q.present.now q.most q.width
        found.old found.new result.least result.rounds }
{
    let n = hall.n;
    let mut sign_table = SignTable::new();
    sign_table.make(hall);
    let table = sign_table.entries();
    let mut signs = [0u8; MOST_SIGNS];
    let m = n + 1;
    let signs = &mut signs[..m];
    start_signs(n, request.present, signs);
    let leeway = Leeway {
        flips: n,
        most: request.most,
    };
    let searched = search_within(table, request.width, signs, workspace, leeway);
    qubo_binary_from_sign_solution(n, signs, found);
    searched
}
