// `absorb_linear_terms_into_hessian`, without a table of its own: the values, the kept columns and the row sums of H with 2·c_i added at (i, i).
// `table, i, k` and `c, i` are in no struct: k and j change from entry to entry and i from row to row, so that each call would be given a new one, and what is asked
// of c_i is asked of no other cost.
ghost use Rattle.std.specs.Prelude.{◌≡◌, cond, ◌+◌, ◌*◌, ◌≤◌, ◌<◌, ◌^◌, length, pos, nat_abs, ◌*ℤ◌};
ghost use Rattle.laws.specs.Sum.{sum, only};
ghost use Rattle.laws.specs.Lists.{elem, elem_z};
ghost use Rattle.tables.specs.Table.{magnitude_of};
ghost use Rattle.sign_table.specs.Walk.{in_row, is_here, stored_column, comes_first, next_column, here_value, after_here, row_term, RowAt, RowSummed};
ghost use Rattle.tables.specs.Entries.{listed};

use tables::entries::Entries;

// Whether entry k is there, in row i.
fn in_row(table: Entries, i: usize, k: usize) -> bool
    ensures { result ≡ in_row table.entry.count (elem table.entry.rows.now) i k }
{
    k < table.count && usize::from(table.rows[k]) == i
}

// Whether it stands at (i, j).
fn is_here(table: Entries, i: usize, j: usize, k: usize) -> bool
    ensures { result ≡ is_here table.entry.count (elem table.entry.rows.now) (elem table.entry.cols.now) i j k }
{
    in_row(table, i, k) && usize::from(table.cols[k]) == j
}

// The column of entry k, if it is of row i.
#[tactic(auto, unfolding(crate::specs::Walk::stored_column))]
fn stored_column(table: Entries, i: usize, k: usize) -> Option<usize>
    ensures { result ≡ stored_column table.entry.count (elem table.entry.rows.now) (elem table.entry.cols.now) i k }
{
    in_row(table, i, k).then(|| usize::from(table.cols[k]))
}

// Whether column i comes before the other, if there is one.
fn comes_first(i: usize, other: Option<usize>) -> bool
    ensures { result ≡ comes_first i other }
{
    other.is_none_or(|j| i < j)
}

// The next kept column of row i, from j on.
#[tactic(auto, unfolding(crate::specs::Walk::next_column))]
pub(crate) fn next_column(table: Entries, c: &[i64], i: usize, j: usize, k: usize) -> Option<usize>
    requires { i < length c.now }
    ensures { result ≡ next_column table.entry.count (elem table.entry.rows.now) (elem table.entry.cols.now) (elem_z c.now) i j k }
{
    let stored = stored_column(table, i, k);
    if c[i] != 0 && j <= i && comes_first(i, stored) {
        Some(i)
    } else {
        stored
    }
}

// The entry after k where k stands at (i, j), else k.
pub(crate) fn after_here(table: Entries, i: usize, j: usize, k: usize) -> usize
    ensures { result ≡ after_here table.entry.count (elem table.entry.rows.now) (elem table.entry.cols.now) i j k }
{
    k + usize::from(is_here(table, i, j, k))
}

// The value of entry k where it stands at (i, j), else 0.
fn stored_value(table: Entries, i: usize, j: usize, k: usize) -> i64
    ensures { result ≡ cond (is_here table.entry.count (elem table.entry.rows.now) (elem table.entry.cols.now) i j k) (elem_z table.entry.values.now k) (pos 0) }
{
    if is_here(table, i, j, k) {
        table.values[k]
    } else {
        0
    }
}

// What the linear costs add at (i, j).
fn linear_value(c: &[i64], i: usize, j: usize) -> i64
    requires { (i < length c.now) × (nat_abs (elem_z c.now i) ≤ 2 ^ 59) }
    ensures { result ≡ only i j (pos 2 *ℤ elem_z c.now i) }
{
    if i == j { 2 * c[i] } else { 0 }
}

// The absorbed value at (i, j).
pub(crate) fn here_value(table: Entries, c: &[i64], i: usize, j: usize, k: usize) -> i64
    requires { (i < length c.now) × (nat_abs (elem_z c.now i) ≤ 2 ^ 59) × (magnitude_of (listed table) ≤ 2 ^ 60) }
    ensures { result ≡ here_value (listed table.entry) (elem_z c.now) i j k }
{
    let stored = stored_value(table, i, j, k);
    stored + linear_value(c, i, j)
}

#[derive(Drop)]
pub(crate) struct RowSum {
    pub next: usize,
    pub sum: i64,
}

// The sum of row i of the absorbed table, whose entries start at `start`.
pub(crate) fn row_sum(table: Entries, c: &[i64], i: usize, start: usize) -> RowSum
    requires { (i < length c.now) × (magnitude_of (listed table) ≤ 2 ^ 60) × (nat_abs (elem_z c.now i) ≤ 2 ^ 59)
        × RowAt table.count (elem table.rows.now) start i × (sum start (row_term (elem table.rows.now) (elem_z table.values.now) i) ≡ pos 0) }
    ensures { RowSummed table.entry.count (elem table.entry.rows.now) (elem_z table.entry.values.now) (elem_z c.now i) i result.next result.sum }
{
    let mut sum: i64 = 0;
    let mut next = table.count;
    for k in start..table.count {
        if usize::from(table.rows[k]) != i {
            next = k;
            break;
        }
        sum += table.values[k];
    }
    RowSum {
        next,
        sum: sum + linear_value(c, i, i),
    }
}
