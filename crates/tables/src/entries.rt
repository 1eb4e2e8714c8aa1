// The entries of a table, lent in the first places of three slices. These aren't cut to the count: `listed` and `lent_table` give a row, a column and a value at any
// place, and behind the count those of a cut slice are others than those of a longer one, so that `listed e ≡ lent_table t`, which callers are promised, would be false.
ghost use Rattle.tables.specs.Table.{Lent};

#[derive(Clone, Copy)]
pub struct Entries<'a> {
    pub count: usize,
    pub rows: &'a [u16],
    pub cols: &'a [u16],
    pub values: &'a [i64],
    ghost lent: { Lent count rows.now cols.now values.now },
}
