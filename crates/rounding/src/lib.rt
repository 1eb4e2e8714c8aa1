// The rounding of draws: each draw's signs, and the first draw of least objective (002, `compute_rounded_sol`). The factor, its rank and m stay three
// parameters. As one value, each of six functions has one `m * rank ≤ length factor.now` less, and a `let s = self.entry in` in each of eight `ensures`, `self.rank`
// and `self.m` in the clauses that stay, and its callers in two crates make the value first. `direction` is a slice: it is as long as the rank, which a type of it
// would have beside it, and each contract would say that both ranks are one. `InRange` and the magnitude stay clauses, as at tables/src/objective.rt.
#![tactic(auto)]

ghost use Rattle.std.specs.Prelude.{◌≡◌, ◌++◌, ◌+◌, ◌*◌, ◌≤◌, length, drop};
ghost use Rattle.std.specs.Float.Ieee as Ieee;
ghost use Rattle.laws.specs.Rows.{set_row};
ghost use Rattle.laws.specs.Lists.{tabulate};
ghost use Rattle.ieee.specs.Floats.{zero64};
ghost use Rattle.limits.specs.Limits.{most_sign_magnitude};
ghost use Rattle.factor.specs.Vectors.{unit};
ghost use Rattle.tables.specs.Table.{InRange, magnitude_of};
ghost use Rattle.rounding.specs.Rounding.{plus_byte, rounded_sign, draw_signs, signs_of, rounded_sols, draw_objective, rounded_sol, rounded_objective};
ghost use Rattle.tables.specs.Entries.{listed};

use factor::rows::{at_row, normalize, row};
use factor::sums::dot;
use local_search::least::keep_better;
use run_limits::Draws;
use slices::copy;
use tables::entries::Entries;
use tables::objective::obj_rounded;

// A sign's byte: 0 is +, 1 is −. No `u8::from`: it would be of `!(product > 0.0)`, which isn't `product <= 0.0`, since a NaN is −.
fn sign_byte(product: f64) -> u8
    ensures { result ≡ plus_byte (Ieee.lt zero64 product) }
{
    if product > 0.0 { 0 } else { 1 }
}

// The signs of the rows' products with the direction.
#[tactic(auto, using(laws::proofs::Made::tabulate_all), unfolding(laws::specs::Lists::tabulate))]
fn set_signs(factor: &[f64], direction: &[f64], rank: usize, m: usize, signs: &mut [u8])
    requires { (m * rank ≤ length factor.now) × (length direction.now ≡ rank) × (length signs.old ≡ m) }
    ensures { signs.new ≡ tabulate (rounded_sign factor.now rank direction.now) m }
{
    for i in 0..m {
        signs[i] = sign_byte(dot(row(factor, rank, i), direction));
    }
}

// The signs of one draw; `direction` is left at the draw divided by its norm.
#[tactic(auto, unfolding(crate::specs::Rounding::draw_signs))]
pub fn round_draw(
    factor: &[f64],
    draw: &[f64],
    rank: usize,
    m: usize,
    direction: &mut [f64],
    signs: &mut [u8],
)
    requires { (m * rank ≤ length factor.now) × (length draw.now ≡ rank) × (length direction.old ≡ rank) × (length signs.old ≡ m) }
    ensures signs_after { signs.new ≡ draw_signs factor.now rank m draw.now }
    ensures direction_after { direction.new ≡ unit draw.now }
{
    copy(direction, draw);
    normalize(direction);
    set_signs(factor, direction, rank, m, signs);
}

// The signs of draw k, written as row k of `sols`.
fn round_at(
    factor: &[f64],
    rank: usize,
    m: usize,
    draws: &[f64],
    k: usize,
    direction: &mut [f64],
    sols: &mut [u8],
)
    requires { (m * rank ≤ length factor.now) × (k * rank + rank ≤ length draws.now) × (length direction.old ≡ rank) × (k * m + m ≤ length sols.old) }
    ensures { sols.new ≡ set_row m sols.old k (signs_of factor.now rank m draws.now k) }
{
    let draw = row(draws, rank, k);
    at_row(
        sols,
        m,
        k,
        |signs| round_draw(factor, draw, rank, m, direction, signs),
    );
}

// The signs of each of the first draws, m for each, one draw after the other; a longer slice keeps its tail. What is left in
// `direction` is free.
#[tactic(auto, using(crate::proofs::Least::sols_next), unfolding(crate::specs::Rounding::rounded_sols))]
pub fn compute_rounded_sols(
    factor: &[f64],
    rank: usize,
    m: usize,
    draws: Draws,
    direction: &mut [f64],
    sols: &mut [u8],
)
    requires { (m * rank ≤ length factor.now) × (draws.count * rank ≤ length draws.numbers.now) × (length direction.old ≡ rank) × (draws.count * m ≤ length sols.old) }
    ensures { sols.new ≡ rounded_sols factor.now rank m draws.entry.numbers.now draws.entry.count ++ drop (draws.entry.count * m) sols.old }
{
    for k in 0..draws.count {
        round_at(factor, rank, m, draws.numbers, k, direction, sols);
    }
}

// The signs of draw k and their objective.
fn evaluate_draw(
    table: Entries,
    factor: &[f64],
    rank: usize,
    m: usize,
    draws: &[f64],
    k: usize,
    direction: &mut [f64],
    signs: &mut [u8],
) -> i64
    requires table_in_bounds { InRange m (listed table) × (magnitude_of (listed table) ≤ most_sign_magnitude) }
    requires rank_in_bounds { (m * rank ≤ length factor.now) × (k * rank + rank ≤ length draws.now) × (length direction.old ≡ rank) × (length signs.old ≡ m) }
    ensures value { result ≡ draw_objective factor.now rank m draws.now (listed table.entry) k }
    ensures signs_after { signs.new ≡ signs_of factor.now rank m draws.now k }
{
    round_draw(factor, row(draws, rank, k), rank, m, direction, signs);
    obj_rounded(table, signs)
}

// The first draw of least objective: its signs, and the objective in eighths. What is left in `direction` and `signs` is free.
#[tactic(auto, using(laws::proofs::Integer::held), unfolding(crate::specs::Rounding::rounded_sol, crate::specs::Rounding::rounded_objective, crate::specs::Rounding::first_least))]
pub fn compute_rounded_sol(
    table: Entries,
    factor: &[f64],
    rank: usize,
    m: usize,
    draws: Draws,
    direction: &mut [f64],
    signs: &mut [u8],
    best: &mut [u8],
) -> i64
    requires table_in_bounds { InRange m (listed table) × (magnitude_of (listed table) ≤ most_sign_magnitude) }
    requires rank_in_bounds { (m * rank ≤ length factor.now) × (draws.count * rank ≤ length draws.numbers.now) × (1 ≤ draws.count)
        × (length direction.old ≡ rank) × (length signs.old ≡ m) × (length best.old ≡ m) }
    ensures value { result ≡ rounded_objective factor.now rank m draws.entry.numbers.now (listed table.entry) draws.entry.count }
    ensures best_after { best.new ≡ rounded_sol factor.now rank m draws.entry.numbers.now (listed table.entry) draws.entry.count }
{
    let mut least = evaluate_draw(table, factor, rank, m, draws.numbers, 0, direction, best);
    for k in 1..draws.count {
        let objective = evaluate_draw(table, factor, rank, m, draws.numbers, k, direction, signs);
        least = keep_better(least, best, objective, signs);
    }
    least
}
