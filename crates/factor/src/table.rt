// A table made ready for the float work, and one row of it.

ghost use Rattle.std.specs.Prelude.{◌≡◌, ◌+◌, ◌≤◌, ◌<◌, length, get_or};
ghost use Rattle.laws.specs.Rows.{part};

// A row of a table made ready for the float work: the columns of its entries, and their values.
#[derive(Clone, Copy)]
pub struct Row<'a> {
    pub cols: &'a [u16],
    pub values: &'a [f64],
    ghost paired: { length cols.now ≡ length values.now },
}

// A table made ready for the float work: the entries row after row, and the place where each row starts, and after the last row its end. It holds no fact:
// what `Shaped` says of the table and m would be asked of `maxcut_oracle::objective::obj` too, which looks at no row start, and of `row`, which looks at two.
#[derive(Clone, Copy)]
pub struct Prepared<'a> {
    pub rows: &'a [u16],
    pub cols: &'a [u16],
    pub values: &'a [f64],
    pub starts: &'a [usize],
}

impl<'a> Prepared<'a> {
    // Row i.
    pub fn row(self, i: usize) -> Row<'a>
        requires { (length self.cols.now ≡ length self.values.now) × (i + 1 < length self.starts.now)
            × (get_or self.starts.now i 0 ≤ get_or self.starts.now (i + 1) 0) × (get_or self.starts.now (i + 1) 0 ≤ length self.cols.now) }
        ensures cols_value { result.cols.now ≡ part (get_or self.entry.starts.now i 0) (get_or self.entry.starts.now (i + 1) 0) self.entry.cols.now }
        ensures values_value { result.values.now ≡ part (get_or self.entry.starts.now i 0) (get_or self.entry.starts.now (i + 1) 0) self.entry.values.now }
    {
        let lo = self.starts[i];
        let hi = self.starts[i + 1];
        Row {
            cols: &self.cols[lo..hi],
            values: &self.values[lo..hi],
        }
    }
}
