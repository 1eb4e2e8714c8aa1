// `qubo_hessian_to_sign_matrix`, of the absorbed table, in one walk of the entries of H.
// The slices that are written stay apart: tried as a struct in `reduced`, where it is proved, but each function has three clauses more, on names.
// So do n, table and c: tried, `Rising` of `Convertible` is no ghost field as it stands (`Before` says "or"), and with none no clause would go.
ghost use Rattle.std.specs.Prelude.{◌≡◌, not, [], ◌∷◌, suc, ◌+◌, ◌*◌, ◌≤◌, ◌<◌, ◌^◌, length, nat_abs, neg_ℤ};
ghost use Rattle.laws.specs.Lists.{elem_z};
ghost use Rattle.tables.specs.Entries.{listed};
ghost use Rattle.sign_table.specs.SignTable.{is_zero, edge, row_places, kept_of, sign_places};
ghost use Rattle.sign_table.specs.Walk.{Wrote, Room};
ghost use Rattle.sign_table.specs.Clauses.{Fits, RowFits, wagon_rows, anchor_row, Put, PutAll, RowPut, AnchorPut};

use crate::absorb::{after_here, here_value, next_column, row_sum};
use tables::entries::Entries;

// One entry, at `at`. Row and column are narrowed by `as`: they are below 65536, and `try_from` would leave a refusal that never comes.
// `put_slot` of reduced ends with the same three writes: one function for both would be a public one in a crate below both, with a contract longer than it.
fn put(
    rows: &mut [u16],
    cols: &mut [u16],
    values: &mut [i64],
    at: usize,
    i: usize,
    j: usize,
    value: i64,
)
    requires { Room at 1 rows.old cols.old values.old × (i < 65536) × (j < 65536) }
    ensures { Wrote (λ _ _. value) ((i, j) ∷ []) at rows.old cols.old values.old rows.new cols.new values.new }
{
    rows[at] = i as u16;
    cols[at] = j as u16;
    values[at] = value;
}

// Minus the sum of a row, where that is not 0.
fn put_negated(
    rows: &mut [u16],
    cols: &mut [u16],
    values: &mut [i64],
    at: usize,
    i: usize,
    j: usize,
    sum: i64,
) -> usize
    requires { Room at (length (edge (not (is_zero sum)) i j)) rows.old cols.old values.old × (i < 65536) × (j < 65536) × (nat_abs sum ≤ 2 ^ 60) }
    ensures { Wrote (λ _ _. neg_ℤ sum) (edge (not (is_zero sum)) i j) at rows.old cols.old values.old rows.new cols.new values.new
        × (result ≡ at + length (edge (not (is_zero sum)) i j)) }
{
    if sum == 0 {
        return at;
    }
    put(rows, cols, values, at, i, j, -sum);
    at + 1
}

// Row i up to column n, which starts with entry `start`.
// The clauses alone speak of n. Tried as a ghost value: callers pick one from the call's arguments, which n would then not be among.
fn put_row(
    n: usize,
    table: Entries,
    c: &[i64],
    i: usize,
    start: usize,
    to_rows: &mut [u16],
    to_cols: &mut [u16],
    to_values: &mut [i64],
    len: usize,
) -> usize
    requires { RowFits n table.count table.rows.now table.cols.now table.values.now c.now i start n len to_rows.old to_cols.old to_values.old }
    ensures { Put n (listed table.entry) (elem_z c.now)
        (row_places (kept_of n (listed table.entry) (elem_z c.now)) i 0 n) len
        to_rows.old to_cols.old to_values.old to_rows.new to_cols.new to_values.new result }
{
    let mut k = start;
    let mut at = len;
    let mut from = 0;
    // From one kept column to the next, which is found in the entries: no range.
    while let Some(j) = next_column(table, c, i, from, k) {
        let value = here_value(table, c, i, j, k);
        put(to_rows, to_cols, to_values, at, i, j, value);
        at += 1;
        k = after_here(table, i, j, k);
        from = j + 1;
    }
    at
}

#[derive(Drop)]
pub struct RowEnd {
    pub next: usize,
    pub len: usize,
}

// Row i whole.
fn put_whole_row(
    n: usize,
    table: Entries,
    c: &[i64],
    i: usize,
    start: usize,
    to_rows: &mut [u16],
    to_cols: &mut [u16],
    to_values: &mut [i64],
    len: usize,
) -> RowEnd
    requires { RowFits n table.count table.rows.now table.cols.now table.values.now c.now i start (suc n) len to_rows.old to_cols.old to_values.old }
    ensures { RowPut n (listed table.entry) (elem_z c.now) i len
        to_rows.old to_cols.old to_values.old to_rows.new to_cols.new to_values.new result.len result.next }
{
    let s = row_sum(table, c, i, start);
    let sum = s.sum;
    let next = s.next;
    let at = put_row(n, table, c, i, start, to_rows, to_cols, to_values, len);
    let end = put_negated(to_rows, to_cols, to_values, at, i, n, sum);
    RowEnd { next, len: end }
}

// The rows of H.
fn put_rows(
    n: usize,
    table: Entries,
    c: &[i64],
    to_rows: &mut [u16],
    to_cols: &mut [u16],
    to_values: &mut [i64],
) -> usize
    requires { Fits n table.count table.rows.now table.cols.now table.values.now c.now 0 (length (wagon_rows n (listed table) (elem_z c.now)))
        to_rows.old to_cols.old to_values.old }
    ensures { PutAll n (listed table.entry) (elem_z c.now)
        (wagon_rows n (listed table.entry) (elem_z c.now))
        to_rows.old to_cols.old to_values.old to_rows.new to_cols.new to_values.new result }
{
    let mut k = 0;
    let mut at = 0;
    for i in 0..n {
        let end = put_whole_row(n, table, c, i, k, to_rows, to_cols, to_values, at);
        k = end.next;
        at = end.len;
    }
    at
}

#[derive(Drop)]
pub struct LastRow {
    pub len: usize,
    pub total: i64,
}

// The last row up to its diagonal, and the sum of all rows.
fn put_last_row(
    n: usize,
    table: Entries,
    c: &[i64],
    to_rows: &mut [u16],
    to_cols: &mut [u16],
    to_values: &mut [i64],
    len: usize,
) -> LastRow
    requires { Fits n table.count table.rows.now table.cols.now table.values.now c.now len (length (anchor_row n (listed table) (elem_z c.now)))
        to_rows.old to_cols.old to_values.old }
    ensures { AnchorPut n (listed table.entry) (elem_z c.now) len
        to_rows.old to_cols.old to_values.old to_rows.new to_cols.new to_values.new result.len result.total }
{
    let mut k = 0;
    let mut at = len;
    let mut total: i64 = 0;
    for i in 0..n {
        let s = row_sum(table, c, i, k);
        let sum = s.sum;
        at = put_negated(to_rows, to_cols, to_values, at, n, i, sum);
        total += sum;
        k = s.next;
    }
    LastRow { len: at, total }
}

// The sign table of (H, c), from the first places of the slices on; how many entries it has.
// It takes no `JudgedHall`, which would ask more of callers: `Fits` holds for unmirrored entries and a magnitude up to 2^60 too.
pub fn sign_matrix(
    n: usize,
    table: Entries,
    c: &[i64],
    to_rows: &mut [u16],
    to_cols: &mut [u16],
    to_values: &mut [i64],
) -> usize
    requires { Fits n table.count table.rows.now table.cols.now table.values.now c.now 0 (table.count + 3 * n + 1) to_rows.old to_cols.old to_values.old }
    ensures { PutAll n (listed table.entry) (elem_z c.now)
        (sign_places n (listed table.entry) (elem_z c.now))
        to_rows.old to_cols.old to_values.old to_rows.new to_cols.new to_values.new result }
{
    let len = put_rows(n, table, c, to_rows, to_cols, to_values);
    let last = put_last_row(n, table, c, to_rows, to_cols, to_values, len);
    let at = last.len;
    let total = last.total;
    put(to_rows, to_cols, to_values, at, n, n, total);
    at + 1
}
