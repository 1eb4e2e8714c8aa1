// Q and V of 002's calls once judged.
ghost use Rattle.std.specs.Prelude.{◌≡◌, ◌*◌, ◌≤◌, length};
ghost use Rattle.limits.specs.Limits.{most_signs, most_sign_entries, most_sign_magnitude, most_rank};
ghost use Rattle.tables.specs.Check.{table_number};
ghost use Rattle.tables.specs.Entries.{listed};

use tables::entries::Entries;

// A sign table of m signs that none of 13 to 16 refuses, and the factor's m rows of `rank` numbers, behind which it may go on.
#[derive(Clone, Copy)]
pub struct Qv<'a> {
    pub m: usize,
    pub table: Entries<'a>,
    pub rank: usize,
    pub factor: &'a [f64],
    ghost judged: { table_number most_signs most_sign_entries most_sign_magnitude m (listed table) ≡ 0 },
    ghost rank_few: { rank ≤ most_rank },
    ghost rows_there: { m * rank ≤ length factor.now },
}
