// A sign table made in arrays of its own.
ghost use Rattle.std.specs.Prelude.{◌≡◌, ◌≤◌, replicate, pos};
ghost use Rattle.laws.specs.Lists.{elem_z};
ghost use Rattle.limits.specs.Limits.{most_sign_entries};
ghost use Rattle.tables.specs.Entries.{listed};
ghost use Rattle.sign_table.specs.Made.{made_table, TableMade};

use crate::sign_matrix::sign_matrix;
use limits::MOST_SIGN_ENTRIES;
use tables::entries::Entries;
use tables::judged::JudgedHall;

// The entries stand in the first places; the others hold whatever they do. Three arrays, since `Entries` lends three slices and `sign_matrix` writes three.
#[derive(Drop)]
pub struct SignTable {
    count: usize,
    rows: [u16; MOST_SIGN_ENTRIES],
    cols: [u16; MOST_SIGN_ENTRIES],
    values: [i64; MOST_SIGN_ENTRIES],
}

impl SignTable {
    // One with no entries.
    pub fn new() -> SignTable
        ensures count_value { result.count ≡ 0 }
        ensures rows_value { result.rows ≡ replicate most_sign_entries 0 }
        ensures cols_value { result.cols ≡ replicate most_sign_entries 0 }
        ensures values_value { result.values ≡ replicate most_sign_entries (pos 0) }
    {
        SignTable {
            count: 0,
            rows: [0; MOST_SIGN_ENTRIES],
            cols: [0; MOST_SIGN_ENTRIES],
            values: [0; MOST_SIGN_ENTRIES],
        }
    }

    // Makes it that of (H, c).
    pub fn make(&mut self, hall: JudgedHall)
        ensures { let h = hall.entry in TableMade h.n (listed h.table) (elem_z h.c.now) self.new }
    {
        self.count = sign_matrix(
            hall.n,
            hall.table,
            hall.c,
            &mut self.rows,
            &mut self.cols,
            &mut self.values,
        );
    }

    // Its entries. The count's clause is no fact of the struct: tried as a ghost field, for which the struct has to leave this file (the methods' clauses name `TableMade`,
    // which names the struct), while each caller's search finds the clause.
    pub fn entries(&self) -> Entries
        requires { self.now.count ≤ most_sign_entries }
        ensures { listed result ≡ made_table self.now }
    {
        Entries {
            count: self.count,
            rows: &self.rows[..self.count],
            cols: &self.cols[..self.count],
            values: &self.values[..self.count],
        }
    }
}
