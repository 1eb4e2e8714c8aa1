// The table of a call, prepared for the float work (000, `separate_diagonal`). `InRange` stays a clause: it is below the length of the slice that is written, or m.
#![tactic(auto)]

pub mod made; // made.rt: a prepared table in arrays of its own

ghost use Rattle.std.specs.Prelude.{◌≡◌, ℕ, true, cond, ◌+◌, ◌≤◌, ◌<◌, eqb, nat_abs, length};
ghost use Rattle.laws.specs.Lists.{elem, elem_z, over, put_if, kept};
ghost use Rattle.ieee.specs.Floats.{eighth_of};
ghost use Rattle.tables.specs.Table.{InRange};
ghost use Rattle.prepared_table.specs.Work.{set_by, sets_aside, stays_by, stays, prepared_rows, prepared_cols, prepared_values, row_start, starts_of, work_starts, diagonal_of, diagonal_sum};
ghost use Rattle.tables.specs.Entries.{listed};

use factor::rows::clear;
use factor::sums::sum;
use tables::entries::Entries;
use tables::staying::put_kept;

// Whether entry e is a diagonal value that isn't 0.
fn sets_it_aside(table: Entries, e: usize) -> bool
    requires { e < table.count }
    ensures { let t = listed table.entry in result ≡ set_by (eqb (t.row e) (t.column e)) (eqb (nat_abs (t.value e)) 0) }
{
    table.rows[e] == table.cols[e] && table.values[e] != 0
}

// Whether the diagonal is set aside: one of its values isn't 0.
fn sets_aside(table: Entries) -> bool
    ensures { result ≡ sets_aside (listed table.entry) }
{
    (0..table.count).any(|e| sets_it_aside(table, e))
}

// Whether an entry stays in the table.
fn stays(aside: bool, i: u16, j: u16) -> bool
    ensures { result ≡ stays_by aside (eqb i j) }
{
    !(aside && i == j)
}

// What `of` makes of the entries that stay, and how many they are. `count` stays beside the slices: those of a table may go on behind it, and of slices that are cut
// the definitions would speak through `take`.
#[tactic(auto, unfolding(laws::specs::Lists::kept))]
fn keep<T: Copy, F: Fn(usize) -> T>(
    count: usize,
    rows: &[u16],
    cols: &[u16],
    aside: bool,
    out: &mut [T],
    of: F,
) -> usize
    requires within { (count ≤ length rows.now) × (count ≤ length cols.now) × (count ≤ length out.old) }
    requires callable { (e : ℕ) → e < count → F.pre of e }
    ensures { (f : ℕ → T) → ((e : ℕ) (x : T) → e < count → F.post of e x → x ≡ f e)
        → (result ≡ length (kept (stays aside (elem rows.now) (elem cols.now)) f count))
        × (out.new ≡ over (kept (stays aside (elem rows.now) (elem cols.now)) f count) out.old) }
{
    let mut at = 0;
    for e in 0..count {
        at = put_kept(out, at, of(e), stays(aside, rows[e], cols[e]));
    }
    at
}

// The first entry whose row is at least i, looked for from `from` on. Tried as `map_or`: what it ensures is one clause by cases on what was found, and the answer
// would take them apart; the `match` gives two goals.
#[tactic(auto, using(crate::proofs::Starting::start_le))]
fn next_start(rows: &[u16], from: usize, i: usize) -> usize
    requires { from ≤ row_start rows.now i }
    ensures { result ≡ row_start rows.now i }
{
    match rows[from..].iter().position(|&row| i <= usize::from(row)) {
        Some(k) => from + k,
        None => rows.len(),
    }
}

// Where each of m rows starts, and where the last ends.
#[tactic(auto, unfolding(laws::specs::Lists::tabulate), using(crate::proofs::Starting::start_rise, laws::proofs::Made::tabulate_next))]
fn set_starts(rows: &[u16], m: usize, starts: &mut [usize])
    requires { m < length starts.old }
    ensures { starts.new ≡ over (starts_of rows.now m) starts.old }
{
    let mut from = 0;
    for i in 0..m + 1 {
        from = next_start(rows, from, i);
        starts[i] = from;
    }
}

// The table without its diagonal if that isn't all 0: rows, columns, doubles and row starts, and how many entries stay.
pub fn separate_diagonal(
    table: Entries,
    m: usize,
    work_rows: &mut [u16],
    work_cols: &mut [u16],
    work_values: &mut [f64],
    starts: &mut [usize],
) -> usize
    requires count_in_bounds { (table.count ≤ length work_rows.old) × (table.count ≤ length work_cols.old) × (table.count ≤ length work_values.old) × (m < length starts.old) }
    ensures value { result ≡ length (prepared_rows (listed table.entry)) }
    ensures work_rows_after { work_rows.new ≡ over (prepared_rows (listed table.entry)) work_rows.old }
    ensures work_cols_after { work_cols.new ≡ over (prepared_cols (listed table.entry)) work_cols.old }
    ensures work_values_after { work_values.new ≡ over (prepared_values (listed table.entry)) work_values.old }
    ensures starts_after { starts.new ≡ over (work_starts (listed table.entry) m) starts.old }
{
    let aside = sets_aside(table);
    let stay = keep(
        table.count,
        table.rows,
        table.cols,
        aside,
        work_rows,
        |e| table.rows[e],
    );
    keep(
        table.count,
        table.rows,
        table.cols,
        aside,
        work_cols,
        |e| table.cols[e],
    );
    let value = |e: usize| -> f64
        requires { e < length table.values.now }
        ensures { result ≡ eighth_of (elem_z table.entry.values.now e) }
    { ieee::eighth(table.values[e]) };
    keep(
        table.count,
        table.rows,
        table.cols,
        aside,
        work_values,
        value,
    );
    set_starts(&work_rows[..stay], m, starts);
    stay
}

// An entry's double at its place on the diagonal, if it lies there.
fn put_diagonal(diagonal: &mut [f64], i: u16, j: u16, value: i64)
    requires { i < length diagonal.old }
    ensures { diagonal.new ≡ put_if (eqb i j) i (eighth_of value) diagonal.old }
{
    if i == j {
        let at = usize::from(i);
        diagonal[at] = ieee::eighth(value);
    }
}

// The diagonal, as long as `out`: 0.0 where no entry is stored.
#[tactic(auto, unfolding(crate::specs::Work::diagonal_of, laws::specs::Turns::up_to))]
fn set_diagonal(table: Entries, out: &mut [f64])
    requires in_range { InRange (length out.old) (listed table) }
    ensures { out.new ≡ diagonal_of (listed table.entry) (length out.old) }
{
    clear(out);
    for e in 0..table.count {
        put_diagonal(out, table.rows[e], table.cols[e], table.values[e]);
    }
}

// The diagonal, as long as `out`, and its sum.
#[tactic(auto, unfolding(crate::specs::Work::diagonal_sum))]
fn sum_diagonal(table: Entries, out: &mut [f64]) -> f64
    requires in_range { InRange (length out.old) (listed table) }
    ensures value { result ≡ diagonal_sum (listed table.entry) (length out.old) }
    ensures out_after { out.new ≡ diagonal_of (listed table.entry) (length out.old) }
{
    set_diagonal(table, out);
    sum(out)
}

// The diagonal of m values in the first places of `out`, and its sum.
pub fn diagonal(table: Entries, m: usize, out: &mut [f64]) -> f64
    requires long_enough { m ≤ length out.old }
    requires in_range { InRange m (listed table) }
    ensures value { result ≡ diagonal_sum (listed table.entry) m }
    ensures out_after { out.new ≡ over (diagonal_of (listed table.entry) m) out.old }
{
    sum_diagonal(table, &mut out[..m])
}
