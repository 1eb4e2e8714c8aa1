// One search: the wagons of state 2 from a choice, all others held in their stores.
// Arrays have a fixed size: no heap, a rule of the project (limits/src/lib.rt).
ghost use Rattle.std.specs.Prelude.{◌≡◌, suc, ◌≤◌, length, ◌-ℤ◌};
ghost use Rattle.laws.specs.Lists.{elem_z, over};
ghost use Rattle.limits.specs.Limits.{most_width, search_workspace};
ghost use Rattle.reduced.specs.Indices.{Within};
ghost use Rattle.sign_table.specs.SignTable.{sign_table};
ghost use Rattle.sign_search.specs.Search.{objective_in, beam_search};
ghost use Rattle.finalize.specs.Finalize.{choice_of};
ghost use Rattle.block_search.specs.Blocks.{searched_held, fall_held};
ghost use Rattle.block_search.specs.Clauses.{Low, start_signs, SearchFits};
ghost use Rattle.tables.specs.Entries.{listed};

use limits::{MOST_ENTRIES, MOST_SIGNS, MOST_WAGONS};
use pinned::lift::lift_choice;
use pinned::reduce::reduce;
use sign_search::search::search_signs;
use sign_table::made::SignTable;
use tables::entries::Entries;
use tables::judged::JudgedHall;
use tables::objective::{obj_rounded, qubo_binary_from_sign_solution};

// The bytes of the free wagons of b, then the anchor's, which is +.
#[tactic(auto, unfolding(laws::specs::Lists::tabulate))]
fn start_signs(free: &[u16], b: &[u8], signs: &mut [u8])
    requires { Within (length b.now) free.now × (length signs.old ≡ suc (length free.now)) }
    ensures { signs.new ≡ start_signs free.now b.now }
{
    for k in 0..free.len() {
        signs[k] = b[usize::from(free[k])];
    }
    signs[free.len()] = 0;
}

// The search on the sign table of (H, c), which is made, from the free wagons of b; `found` takes what the answer decodes to. The fall in eighths.
fn search_reduced(
    hall: JudgedHall,
    width: usize,
    free: &[u16],
    b: &[u8],
    found: &mut [u8],
    workspace: &mut [u64],
) -> i64
    requires { SearchFits hall.n width free.now b.now (length found.old) (length workspace.old) }
    ensures { let h = hall.entry in let t = sign_table h.n (listed h.table) (elem_z h.c.now) in let start = start_signs free.now b.now in let answer = (beam_search t width start).answer in
        (result ≡ objective_in t start -ℤ objective_in t answer) × (found.new ≡ over (choice_of h.n answer) found.old) }
{
    let mut sign_table = SignTable::new();
    sign_table.make(hall);
    let table = sign_table.entries();
    let mut signs = [0u8; MOST_SIGNS];
    let m = hall.n + 1;
    let signs = &mut signs[..m];
    start_signs(free, b, signs);
    let start = obj_rounded(table, signs);
    let searched = search_signs(table, width, signs, workspace);
    qubo_binary_from_sign_solution(hall.n, signs, found);
    start - searched.least
}

// The free wagons searched from b, all others held; b takes the choice found. The fall in eighths.
pub fn search_held(
    hall: JudgedHall,
    states: &[u8],
    width: usize,
    b: &mut [u8],
    workspace: &mut [u64],
) -> i64
    requires { (hall.n ≤ length states.now) × (length b.old ≡ hall.n) × Low b.old × (width ≤ most_width) × (search_workspace ≤ length workspace.old) }
    ensures { let h = hall.entry in (result ≡ fall_held h.n (listed h.table) (elem_z h.c.now) width states.now b.old)
        × (b.new ≡ searched_held h.n (listed h.table) (elem_z h.c.now) width states.now b.old) }
{
    // No struct that owns these arrays, as `SignTable` does its own: this function alone would hold one, and what makes it and what reads it would say the clauses
    // of `reduce` again, of fields instead of slices. `record_call`, which reduces too, has shorter arrays for a table of few entries.
    let mut free = [0u16; MOST_WAGONS];
    let mut to_rows = [0u16; MOST_ENTRIES];
    let mut to_cols = [0u16; MOST_ENTRIES];
    let mut to_values = [0i64; MOST_ENTRIES];
    let mut to_c = [0i64; MOST_WAGONS];
    let mut found = [0u8; MOST_WAGONS];
    let shrunk = reduce(
        hall,
        states,
        &mut free,
        &mut to_rows,
        &mut to_cols,
        &mut to_values,
        &mut to_c,
    );
    let wagons = shrunk.free;
    let entries = shrunk.count;
    let table = Entries {
        count: entries,
        rows: &to_rows[..entries],
        cols: &to_cols[..entries],
        values: &to_values[..entries],
    };
    let reduced = JudgedHall {
        n: wagons,
        table,
        c: &to_c[..wagons],
    };
    let fall = search_reduced(reduced, width, &free[..wagons], b, &mut found, workspace);
    lift_choice(hall.n, states, &free[..wagons], &found, b);
    fall
}
