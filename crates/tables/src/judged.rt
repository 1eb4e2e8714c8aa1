// (H, c) as it is once judged. It has a file of its own since its facts speak of `listed`, which speaks of `Entries`.
ghost use Rattle.std.specs.Prelude.{◌≡◌, ◌≤◌, length};
ghost use Rattle.laws.specs.Lists.{elem_z};
ghost use Rattle.limits.specs.Limits.{most_wagons, most_entries, most_magnitude};
ghost use Rattle.tables.specs.Check.{hall_number};
ghost use Rattle.tables.specs.Entries.{listed};

use crate::entries::Entries;

// (H, c) that none of 13 to 16 refuses: n wagons, the entries of H, and a cost for each wagon. The costs may go on behind n, as the entries behind their count.
#[derive(Clone, Copy)]
pub struct JudgedHall<'a> {
    pub n: usize,
    pub table: Entries<'a>,
    pub c: &'a [i64],
    ghost costs_there: { n ≤ length c.now },
    ghost judged: { hall_number most_wagons most_entries most_magnitude n (listed table) (elem_z c.now) ≡ 0 },
}
