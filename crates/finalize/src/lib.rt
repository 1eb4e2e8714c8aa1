// What a run gives at its finish (000: `solve_maxcut_sdp_profiled` and `solve_qubo_sdp_subproblem` after the sweeps), for an accepted (H, c) and
// accepted settings.
#![tactic(auto)]

mod choice; // choice.rt: the rounded choice, the search from it, and what its answer decodes to
mod finish; // finish.rt: the sign table, the factor and the settings of a finish
pub mod multipliers; // multipliers.rt: the multipliers with the diagonal added, and the diagonal's sum
pub mod room; // room.rt: local arrays

ghost use Rattle.std.specs.Prelude.{suc, ◌*◌, ◌≤◌, length, take};
ghost use Rattle.laws.specs.Lists.{elem_z};
ghost use Rattle.limits.specs.Limits.{search_workspace};
ghost use Rattle.finalize.specs.Clauses.{Fits, Works, Finalizes};
ghost use Rattle.tables.specs.Entries.{listed};

use choice::choose;
use finish::Finish;
use multipliers::multipliers;
use run_limits::Draws;
use sign_table::made::SignTable;
use tables::bound::entrywise_lower_bound;
use tables::judged::JudgedHall;
use tables::objective::floor_eighths;

// The cost of the rounded choice, that of the search's answer, and the rounds. Costs are in eighths.
#[derive(Drop)]
pub struct Chosen {
    pub rounded_cost: i64,
    pub cost: i64,
    pub rounds: u64,
}

// The figures of a finish; the choice and the multipliers are in the slices lent for them. The floor is in eighths.
#[derive(Drop)]
pub struct Figures {
    pub diagonal_sum: f64,
    pub float_bound: f64,
    pub floor: i64,
    pub chosen: Chosen,
}

// The finish on the sign table of n wagons, from a factor of n + 1 rows.
#[tactic(auto, using(tables::proofs::Checks::table_accepted))]
fn finalize_signs(
    finish: Finish,
    b: &mut [u8],
    dual_variables: &mut [f64],
    workspace: &mut [u64],
) -> Figures
    requires { (finish.n ≤ length b.old) × (suc finish.n ≤ length dual_variables.old) × (search_workspace ≤ length workspace.old) }
    ensures { let f = finish.entry in Works (listed f.table) f.n f.rank f.width f.draws.count f.draws.numbers.now f.factor.now
        b.old b.new dual_variables.old dual_variables.new result.diagonal_sum result.float_bound result.floor result.chosen.rounded_cost result.chosen.cost result.chosen.rounds }
{
    let floor = floor_eighths(finish.table);
    let float_bound = entrywise_lower_bound(finish.table);
    let diagonal_sum = multipliers(
        finish.n + 1,
        finish.table,
        finish.rank,
        finish.factor,
        dual_variables,
    );
    let chosen = choose(finish, b, workspace);
    Figures {
        diagonal_sum,
        float_bound,
        floor,
        chosen,
    }
}

// The finish on (H, c) of n wagons, from the factor's first n + 1 rows; b takes the choice, `dual_variables` the multipliers.
// The slices that are written stay three `&mut`: in a struct that is lent on, each function would promise of each that it keeps its name.
pub fn finalize(
    hall: JudgedHall,
    rank: usize,
    width: usize,
    draws: Draws,
    factor: &[f64],
    b: &mut [u8],
    dual_variables: &mut [f64],
    workspace: &mut [u64],
) -> Figures
    requires { Fits hall.n rank width draws.count (length draws.numbers.now) (length factor.now) (length b.old) (length dual_variables.old) (length workspace.old) }
    ensures { let h = hall.entry in Finalizes h.n (listed h.table) (elem_z h.c.now) rank width draws.entry.count
        draws.entry.numbers.now (take (suc h.n * rank) factor.now) b.old b.new dual_variables.old dual_variables.new result.diagonal_sum result.float_bound result.floor result.chosen.rounded_cost result.chosen.cost result.chosen.rounds }
{
    let mut signs = SignTable::new();
    signs.make(hall);
    let size = (hall.n + 1) * rank;
    let finish = Finish {
        n: hall.n,
        table: signs.entries(),
        rank,
        width,
        draws,
        factor: &factor[..size],
    };
    finalize_signs(finish, b, dual_variables, workspace)
}
