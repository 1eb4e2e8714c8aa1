// A table, and an (H, c), as C lends them.
ghost use Rattle.std.specs.Prelude.{◌≡◌};
ghost use Rattle.tables.specs.CostTable.{cost_table};
ghost use Rattle.tables.specs.Lent.{costs_of};

use tables::lent::{LentHall, LentTable};

pub fn lent_table<'a>(
    size: usize,
    count: usize,
    rows: &'a [u16],
    cols: &'a [u16],
    values: &'a [i64],
) -> LentTable<'a>
    ensures { (result.size ≡ size) × (result.count ≡ count) × (result.rows.now ≡ rows.now) × (result.cols.now ≡ cols.now) × (result.values.now ≡ values.now) }
{
    LentTable {
        size,
        count,
        rows,
        cols,
        values,
    }
}

pub fn lent_hall<'a>(
    n: usize,
    count: usize,
    rows: &'a [u16],
    cols: &'a [u16],
    values: &'a [i64],
    c: &'a [i64],
) -> LentHall<'a>
    ensures fields { (result.table.size ≡ n) × (result.table.count ≡ count) × (result.table.rows.now ≡ rows.now) × (result.table.cols.now ≡ cols.now)
        × (result.table.values.now ≡ values.now) × (result.c.now ≡ c.now) }
    ensures costs { costs_of result ≡ cost_table n count rows.now cols.now values.now c.now }
{
    let table = lent_table(n, count, rows, cols, values);
    LentHall { table, c }
}
