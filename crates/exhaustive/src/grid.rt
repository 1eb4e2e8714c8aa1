// The table as a square of as many wagons as are walked, and what setting each digit adds to the cost.
ghost use Rattle.std.specs.Prelude.{◌≡◌, ℕ, ◌+◌, ◌*◌, ◌<◌, ◌≤◌, length, set, replicate, pos, nat_abs, ◌+ℤ◌};
ghost use Rattle.std.specs.Int.{w64};
ghost use Rattle.std.proofs.Common.{SFits};
ghost use Rattle.laws.specs.Lists.{elem_z};
ghost use Rattle.limits.specs.Limits.{most_magnitude, most_walked};
ghost use Rattle.tables.specs.Table.{InRange, magnitude_of};
ghost use Rattle.exhaustive.specs.Walk.{LaidOut, Small, raised_field, Raised, Raisable, start_field, Starts};
ghost use Rattle.tables.specs.Entries.{listed};

use limits::MOST_WALKED;
use tables::entries::Entries;

// The square's places, row by row: one array, no array of rows, since definitions speak of one list, and one `set` says what an entry changes.
pub const PLACES: usize = MOST_WALKED * MOST_WALKED;

// Adds a value at (i, j).
fn add_at(i: usize, j: usize, value: i64, grid: &mut [i64; PLACES])
    requires { (i < most_walked) × (j < most_walked) × SFits w64 (elem_z grid.old (i * most_walked + j) +ℤ value) }
    ensures { grid.new ≡ set grid.old (i * most_walked + j) (elem_z grid.old (i * most_walked + j) +ℤ value) }
{
    let at = i * MOST_WALKED + j;
    grid[at] += value;
}

// Lays the entries out over zeros.
pub fn lay_out(table: Entries, grid: &mut [i64; PLACES])
    requires { InRange most_walked (listed table) × (magnitude_of (listed table) ≤ most_magnitude) × (grid.old ≡ replicate (most_walked * most_walked) (pos 0)) }
    ensures { LaidOut (listed table.entry) grid.new }
{
    for k in 0..table.count {
        let i = usize::from(table.rows[k]);
        let j = usize::from(table.cols[k]);
        add_at(i, j, table.values[k], grid);
    }
}

// What digit j adds to the cost of choice 0.
fn start_field(j: usize, grid: &[i64; PLACES], c: &[i64]) -> i64
    requires { (j < most_walked) × (j < length c.now) × Small grid.now × (nat_abs (elem_z c.now j) ≤ most_magnitude) }
    ensures { result ≡ start_field grid.now c.now j }
{
    let at = j * MOST_WALKED + j;
    4 * grid[at] + 8 * c[j]
}

// The same of each digit.
#[tactic(auto, unfolding(laws::specs::Rows::map_first))]
pub fn start_fields(n: usize, grid: &[i64; PLACES], c: &[i64], fields: &mut [i64; MOST_WALKED])
    requires { (n ≤ most_walked) × (n ≤ length c.now) × Small grid.now × ((j : ℕ) → j < n → nat_abs (elem_z c.now j) ≤ most_magnitude)
        × (most_walked ≡ length fields.old) }
    ensures { Starts n grid.now c.now fields.new }
{
    for j in 0..n {
        fields[j] = start_field(j, grid, c);
    }
}

// What digit i adds once digit j is set.
fn raised_field(i: usize, j: usize, fields: &[i64; MOST_WALKED], grid: &[i64; PLACES]) -> i64
    requires { (i < j) × Raisable j fields.now grid.now }
    ensures { result ≡ raised_field fields.now grid.now j i }
{
    let at = j * MOST_WALKED + i;
    fields[i] + 8 * grid[at]
}

// The same of each digit below j.
#[tactic(auto, unfolding(laws::specs::Rows::map_first))]
pub fn raise(
    j: usize,
    fields: &[i64; MOST_WALKED],
    grid: &[i64; PLACES],
    up: &mut [i64; MOST_WALKED],
)
    requires { Raisable j fields.now grid.now × (most_walked ≡ length up.old) }
    ensures { Raised j fields.now grid.now up.new }
{
    for i in 0..j {
        up[i] = raised_field(i, j, fields, grid);
    }
}
