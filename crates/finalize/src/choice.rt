// The rounded choice of a factor, the search from it, and the choice that its answer decodes to (000, 002, 003).
// Arrays have a fixed size: no heap, a rule of the project (limits/src/lib.rt).
ghost use Rattle.std.specs.Prelude.{◌≡◌, suc, ◌≤◌, length};
ghost use Rattle.limits.specs.Limits.{search_workspace};
ghost use Rattle.finalize.specs.Clauses.{Chooses};
ghost use Rattle.tables.specs.Entries.{listed};

use super::finish::Finish;
use super::{Chosen, room};
use rounding::compute_rounded_sol;
use sign_search::search::search_signs;
use tables::objective::qubo_binary_from_sign_solution;

// `choose`, with room for a direction of rank numbers and twice n + 1 signs.
fn search_from(
    finish: Finish,
    direction: &mut [f64],
    signs: &mut [u8],
    best: &mut [u8],
    b: &mut [u8],
    workspace: &mut [u64],
) -> Chosen
    requires { (finish.n ≤ length b.old) × (search_workspace ≤ length workspace.old)
        × (length direction.old ≡ finish.rank) × (length signs.old ≡ suc finish.n) × (length best.old ≡ suc finish.n) }
    ensures { let f = finish.entry in Chooses (listed f.table) f.n f.rank f.width f.draws.count f.draws.numbers.now
        f.factor.now b.old b.new result.rounded_cost result.cost result.rounds }
{
    let rounded_cost = compute_rounded_sol(
        finish.table,
        finish.factor,
        finish.rank,
        finish.n + 1,
        finish.draws,
        direction,
        signs,
        best,
    );
    let found = search_signs(finish.table, finish.width, best, workspace);
    qubo_binary_from_sign_solution(finish.n, best, b);
    Chosen {
        rounded_cost,
        cost: found.least,
        rounds: found.rounds,
    }
}

// The rounded choice of the factor's n + 1 rows, and the search from it on their sign table; b takes the choice found.
#[tactic(auto, using(tables::proofs::Checks::table_accepted))]
pub fn choose(finish: Finish, b: &mut [u8], workspace: &mut [u64]) -> Chosen
    requires { (finish.n ≤ length b.old) × (search_workspace ≤ length workspace.old) }
    ensures { let f = finish.entry in Chooses (listed f.table) f.n f.rank f.width f.draws.count f.draws.numbers.now
        f.factor.now b.old b.new result.rounded_cost result.cost result.rounds }
{
    let mut direction = room::direction();
    let mut signs = room::signs();
    let mut best = room::signs();
    let m = finish.n + 1;
    search_from(
        finish,
        &mut direction[..finish.rank],
        &mut signs[..m],
        &mut best[..m],
        b,
        workspace,
    )
}
