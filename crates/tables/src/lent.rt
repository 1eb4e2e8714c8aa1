// What a call is lent: numbers, and slices whose lengths may be any. checked.rt hands it over once judged.
ghost use Rattle.std.specs.Prelude.{◌≡◌};
ghost use Rattle.tables.specs.Entries.{listed};
ghost use Rattle.tables.specs.Table.{Lent};

use crate::entries::Entries;

// A table: its size, how many entries it has, and three slices for them.
#[derive(Clone, Copy)]
pub struct LentTable<'a> {
    pub size: usize,
    pub count: usize,
    pub rows: &'a [u16],
    pub cols: &'a [u16],
    pub values: &'a [i64],
}

impl<'a> LentTable<'a> {
    ghost use Rattle.tables.specs.Lent.{lent_table};

    // Its entries, whose slices are long enough.
    pub fn entries(self) -> Entries<'a>
        requires { Lent self.count self.rows.now self.cols.now self.values.now }
        ensures { listed result ≡ lent_table self.entry }
    {
        Entries {
            count: self.count,
            rows: self.rows,
            cols: self.cols,
            values: self.values,
        }
    }
}

// (H, c): the table of H, whose size is the count of wagons, and a cost for each wagon.
#[derive(Clone, Copy)]
pub struct LentHall<'a> {
    pub table: LentTable<'a>,
    pub c: &'a [i64],
}
