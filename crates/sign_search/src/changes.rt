// The changes of the objective by flipping each sign, in one pass over the entries.
ghost use Rattle.std.specs.Prelude.{◌≡◌, ◌≤◌, ◌<◌, length, get_or, pos, nat_abs, ◌+ℤ◌, ◌*ℤ◌};
ghost use Rattle.std.specs.Int.{w64};
ghost use Rattle.std.proofs.Common.{SFits};
ghost use Rattle.laws.specs.Lists.{fill};
ghost use Rattle.limits.specs.Limits.{most_sign_magnitude};
ghost use Rattle.tables.specs.Table.{sign, sign_at};
ghost use Rattle.tables.specs.Flip.{flip_share, flip_term};
ghost use Rattle.sign_search.specs.Clauses.{SumsFit, Cleared, RowTurned, changes_over};
ghost use Rattle.tables.specs.Entries.{listed};

use local_search::rows::sign_at;
use tables::entries::Entries;

// Sets the first m changes to 0; those behind them stay. Not the caller's cut and `fill`: what `changes_of` proves three times would each time speak of
// a front and the rest, and here it is the one list of the clause. `clear` of reduced is the same of f64: one for both would be a generic one in a crate
// below both, with a third contract for one line.
pub fn clear(changes: &mut [i64], m: usize)
    requires { m ≤ length changes.old }
    ensures { changes.new ≡ fill (λ i. pos 0) m changes.old }
{
    changes[..m].fill(0);
}

// A value times a sign's byte. The bound of a value stands in three contracts and in no struct: each caller reads a plain i64 from the table, and
// `weighed` would have to make a second such value of what the first signing answers.
#[tactic(auto, using(crate::proofs::ChangeLaws::plus, crate::proofs::ChangeLaws::minus))]
pub fn signed(value: i64, x: u8) -> i64
    requires { nat_abs value ≤ most_sign_magnitude }
    ensures { result ≡ value *ℤ sign x }
{
    if x == 0 { value } else { -value }
}

// A weight times a value times both signs.
#[tactic(auto, using(crate::proofs::ChangeLaws::weighed_fits, crate::proofs::ChangeLaws::signed_small))]
pub fn weighed(weight: i64, value: i64, x: u8, y: u8) -> i64
    requires { (nat_abs weight ≤ 8) × (nat_abs value ≤ most_sign_magnitude) }
    ensures { result ≡ weight *ℤ (value *ℤ sign x *ℤ sign y) }
{
    weight * signed(signed(value, x), y)
}

// What an entry at (i, j), whose signs are x and y, adds to the change by flipping sign i.
#[tactic(auto, using(crate::proofs::ChangeLaws::flip_diagonal))]
fn entry_change(i: u16, j: u16, value: i64, x: u8, y: u8) -> i64
    requires { nat_abs value ≤ most_sign_magnitude }
    ensures { result ≡ flip_share i i j (sign x) (sign y) value }
{
    if i == j {
        return 0;
    }
    weighed(-4, value, x, y)
}

// What entry k adds to the change by flipping the sign of its row.
fn change_term(table: Entries, signs: &[u8], k: usize) -> i64
    requires { (k < table.count) × SumsFit (length signs.now) (listed table) }
    ensures { result ≡ flip_term (listed table.entry) (sign_at signs.now) (get_or table.entry.rows.now k 0) k }
{
    let i = table.rows[k];
    let j = table.cols[k];
    entry_change(
        i,
        j,
        table.values[k],
        sign_at(signs, usize::from(i)),
        sign_at(signs, usize::from(j)),
    )
}

// Lays down a row's sum where the next entry is of another row; the sum goes on where it is of the same.
fn turn_row(changes: &mut [i64], row: usize, i: usize, held: i64) -> i64
    requires { (row < length changes.old) × SFits w64 (get_or changes.old row (pos 0) +ℤ held) }
    ensures { RowTurned row i held result changes.old changes.new }
{
    if i == row {
        return held;
    }
    changes[row] += held;
    0
}

// Adds every entry to the change of its row, a row's entries in one sum.
fn sum_rows(table: Entries, signs: &[u8], changes: &mut [i64])
    requires { SumsFit (length signs.now) (listed table) × (length signs.now ≤ length changes.old) × (0 < table.count) × Cleared (length signs.now) changes.old }
    ensures { changes.new ≡ changes_over (listed table.entry) signs.now changes.old }
{
    let mut row = usize::from(table.rows[0]);
    let mut held: i64 = 0;
    for k in 0..table.count {
        let i = usize::from(table.rows[k]);
        held = turn_row(changes, row, i, held);
        row = i;
        held += change_term(table, signs, k);
    }
    changes[row] += held;
}

// The changes by flipping each sign, in one pass over the entries; what stands behind them stays.
#[tactic(auto, using(crate::proofs::ChangeLaws::cleared, crate::proofs::ChangeLaws::over_cleared, crate::proofs::ChangeLaws::changes_laid, crate::proofs::ChangeLaws::changes_none))]
pub fn changes_of(table: Entries, signs: &[u8], changes: &mut [i64])
    requires { SumsFit (length signs.now) (listed table) × (length signs.now ≤ length changes.old) }
    ensures { changes.new ≡ changes_over (listed table.entry) signs.now changes.old }
{
    clear(changes, signs.len());
    if table.count == 0 {
        return;
    }
    sum_rows(table, signs, changes);
}
