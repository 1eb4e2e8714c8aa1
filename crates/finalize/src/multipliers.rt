// The multipliers over the table with its diagonal set aside, with the diagonal added after (000, 002).
// The table and the factor aren't a `Finish` here: `multipliers` is public, and asks less of the table than that no number refuses it. `InRange` stands twice.
// Arrays have a fixed size: no heap, a rule of the project (limits/src/lib.rt).
ghost use Rattle.std.specs.Prelude.{◌≡◌, ◌*◌, ◌≤◌, length};
ghost use Rattle.laws.specs.Lists.{over};
ghost use Rattle.tables.specs.Table.{InRange};
ghost use Rattle.prepared_table.specs.Work.{diagonal_of, diagonal_sum};
ghost use Rattle.maxcut_oracle.specs.Table.{dual_variables};
ghost use Rattle.limits.specs.Limits.{most_signs, most_sign_entries, most_rank};
ghost use Rattle.tables.specs.Entries.{listed};

use super::room;
use maxcut_oracle::objective::dual_variables;
use prepared_table::diagonal;
use prepared_table::made::PreparedTable;
use tables::entries::Entries;

// The multipliers of m rows in `dual`, by a diagonal of m numbers, with room for a row of the product of the table without its diagonal and the factor.
fn multiply_out(
    m: usize,
    table: Entries,
    rank: usize,
    factor: &[f64],
    diagonal: &[f64],
    sums: &mut [f64],
    dual: &mut [f64],
)
    requires in_range { InRange m (listed table) × (length factor.now ≡ m * rank) }
    requires few { (m ≤ most_signs) × (table.count ≤ most_sign_entries) }
    requires diagonal_value { (diagonal.now ≡ diagonal_of (listed table) m) × (length sums.old ≡ rank) × (length dual.old ≡ m) }
    ensures { dual.new ≡ dual_variables (listed table.entry) m rank factor.now }
{
    let mut work = PreparedTable::new();
    work.make(table, m);
    dual_variables(work.table(), diagonal, factor, rank, m, sums, dual);
}

// The multipliers of the factor's m rows over the sign table, with the diagonal added, in the first places of `dual`; the diagonal's sum.
pub fn multipliers(m: usize, table: Entries, rank: usize, factor: &[f64], dual: &mut [f64]) -> f64
    requires in_range { InRange m (listed table) × (length factor.now ≡ m * rank) }
    requires m_le_most_signs { (m ≤ most_signs) × (table.count ≤ most_sign_entries) × (rank ≤ most_rank) × (m ≤ length dual.old) }
    ensures value { result ≡ diagonal_sum (listed table.entry) m }
    ensures dual_after { dual.new ≡ over (dual_variables (listed table.entry) m rank factor.now) dual.old }
{
    let mut aside = room::numbers();
    let mut sums = room::direction();
    let sum = diagonal(table, m, &mut aside);
    multiply_out(
        m,
        table,
        rank,
        factor,
        &aside[..m],
        &mut sums[..rank],
        &mut dual[..m],
    );
    sum
}
