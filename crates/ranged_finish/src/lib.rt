// A finish over costs known within ranges (02, Note 8): on the high table, with the choice's figures at both ends and the low table's floor.
#![tactic(auto)]

mod figures; // figures.rt: the floor of (H, c)
pub mod finish; // finish.rt: the call
mod number; // number.rt: the call's number
mod ranges; // ranges.rt: the number of a ranged table

ghost use Rattle.std.specs.Prelude.{◌≡◌};
ghost use Rattle.tables.specs.Table.{Lent, table_of};
ghost use Rattle.tables.specs.Entries.{listed};
ghost use Rattle.tables.specs.Lent.{costs_of};
ghost use Rattle.ranged_finish.specs.Ranged.{ranged_of, high_of};

use run_contract::FinishResult;
use tables::entries::Entries;
use tables::lent::{LentHall, LentTable};

// A ranged table as a call is lent it: a low and a high number for each entry and for each wagon; the slices' lengths may be any.
#[derive(Clone, Copy)]
pub struct LentRanged<'a> {
    pub n: usize,
    pub count: usize,
    pub rows: &'a [u16],
    pub cols: &'a [u16],
    pub low: &'a [i64],
    pub high: &'a [i64],
    pub low_c: &'a [i64],
    pub high_c: &'a [i64],
}

impl<'a> LentRanged<'a> {
    // The table with its low or its high numbers.
    fn table(self, values: &'a [i64]) -> LentTable<'a>
        ensures { let r = self.entry in (result.size ≡ r.n) × (result.count ≡ r.count) × (result.rows.now ≡ r.rows.now) × (result.cols.now ≡ r.cols.now) × (result.values.now ≡ values.now) }
    {
        LentTable {
            size: self.n,
            count: self.count,
            rows: self.rows,
            cols: self.cols,
            values,
        }
    }

    // The entries with their low or their high numbers.
    fn entries(self, values: &'a [i64]) -> Entries<'a>
        requires { Lent self.count self.rows.now self.cols.now values.now }
        ensures { let r = self.entry in listed result ≡ table_of r.count r.rows.now r.cols.now values.now }
    {
        self.table(values).entries()
    }

    // The high table.
    fn high_hall(self) -> LentHall<'a>
        ensures { costs_of result ≡ high_of (ranged_of self.entry) }
    {
        LentHall {
            table: self.table(self.high),
            c: self.high_c,
        }
    }
}

// What a finish on the high table gives, and the choice's low and high figures and the low table's floor, in eighths.
#[derive(Drop)]
pub struct RangedResult {
    pub result: FinishResult,
    pub low: i64,
    pub high: i64,
    pub low_floor: i64,
}
