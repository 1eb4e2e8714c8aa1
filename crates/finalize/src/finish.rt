// What a finish works on.
ghost use Rattle.std.specs.Prelude.{◌≡◌, suc, ◌*◌, ◌≤◌, length};
ghost use Rattle.limits.specs.Limits.{most_signs, most_sign_entries, most_sign_magnitude, most_rank, most_width};
ghost use Rattle.tables.specs.Check.{table_number};
ghost use Rattle.tables.specs.Entries.{listed};

use run_limits::Draws;
use tables::entries::Entries;

// The sign table of n wagons, which none of 13 to 16 refuses, the factor's n + 1 rows and nothing behind them, and accepted settings.
#[derive(Clone, Copy)]
pub struct Finish<'a, 'b> {
    pub n: usize,
    pub table: Entries<'a>,
    pub rank: usize,
    pub width: usize,
    pub draws: Draws<'a>,
    pub factor: &'b [f64],
    ghost judged: { table_number most_signs most_sign_entries most_sign_magnitude (suc n) (listed table) ≡ 0 },
    ghost rank_few: { rank ≤ most_rank },
    ghost width_few: { width ≤ most_width },
    ghost draws_some: { 1 ≤ draws.count },
    ghost draws_there: { draws.count * rank ≤ length draws.numbers.now },
    ghost rows_are: { length factor.now ≡ suc n * rank },
}
