// A prepared table made in arrays of its own.
ghost use Rattle.std.specs.Prelude.{◌≡◌, ◌+◌, ◌≤◌, take, replicate};
ghost use Rattle.ieee.specs.Floats.{zero64};
ghost use Rattle.limits.specs.Limits.{most_signs, most_sign_entries};
ghost use Rattle.tables.specs.Entries.{listed};

use crate::separate_diagonal;
use factor::table::Prepared;
use limits::{MOST_SIGN_ENTRIES, MOST_SIGNS};
use tables::entries::Entries;

const ROW_STARTS: usize = MOST_SIGNS + 1;

// Of `size` rows. The entries and the starts stand in the first places; the others hold whatever they do. Three arrays for the entries: `separate_diagonal` fills
// three slices and `Prepared` lends three, and a sweep reads a row's columns and values without its rows.
#[derive(Drop)]
pub struct PreparedTable {
    size: usize,
    count: usize,
    rows: [u16; MOST_SIGN_ENTRIES],
    cols: [u16; MOST_SIGN_ENTRIES],
    values: [f64; MOST_SIGN_ENTRIES],
    starts: [usize; ROW_STARTS],
    ghost fits: { (count ≤ most_sign_entries) × (size ≤ most_signs) },
}

impl PreparedTable {
    ghost use Rattle.prepared_table.specs.Made.{MadeOf};

    // One with no rows.
    pub fn new() -> PreparedTable
        ensures sizes_value { (result.size ≡ 0) × (result.count ≡ 0) }
        ensures rows_value { result.rows ≡ replicate most_sign_entries 0 }
        ensures cols_value { result.cols ≡ replicate most_sign_entries 0 }
        ensures values_value { result.values ≡ replicate most_sign_entries zero64 }
        ensures starts_value { result.starts ≡ replicate (most_signs + 1) 0 }
    {
        PreparedTable {
            size: 0,
            count: 0,
            rows: [0; MOST_SIGN_ENTRIES],
            cols: [0; MOST_SIGN_ENTRIES],
            values: [0.0; MOST_SIGN_ENTRIES],
            starts: [0; ROW_STARTS],
        }
    }

    // Makes it that of a table of m rows.
    pub fn make(&mut self, table: Entries, m: usize)
        requires { (table.count ≤ most_sign_entries) × (m ≤ most_signs) }
        ensures { MadeOf (listed table.entry) m self.new }
    {
        self.size = m;
        self.count = separate_diagonal(
            table,
            m,
            &mut self.rows,
            &mut self.cols,
            &mut self.values,
            &mut self.starts,
        );
    }

    // It, cut to its entries and its rows.
    pub fn table(&self) -> Prepared
        ensures rows_value { result.rows.now ≡ take self.now.count self.now.rows }
        ensures cols_value { result.cols.now ≡ take self.now.count self.now.cols }
        ensures values_value { result.values.now ≡ take self.now.count self.now.values }
        ensures starts_value { result.starts.now ≡ take (self.now.size + 1) self.now.starts }
    {
        let end = self.size + 1;
        Prepared {
            rows: &self.rows[..self.count],
            cols: &self.cols[..self.count],
            values: &self.values[..self.count],
            starts: &self.starts[..end],
        }
    }
}
