// The factor that a run starts from (000 and 004, `prepare_initial_factor`). The factor is written, so that a value of it with rank and m would need the
// clause at each function that its reference keeps its name: `length factor.old ≡ m * rank` is as short. `1 ≤ rank` stands in five contracts: a struct of rank
// and m with that as a ghost field would ask more of `start_rows`, which allows a rank of 0, and each clause would name the two through a field.
#![tactic(auto)]

ghost use Rattle.std.specs.Prelude.{◌≡◌, ◌*◌, ◌≤◌, length};
ghost use Rattle.std.specs.Float.Ieee as Ieee;
ghost use Rattle.ieee.specs.Floats.{zero64};
ghost use Rattle.run_limits.specs.Start.{start_count, signs_in, draws_in};
ghost use Rattle.initialize.specs.Initialize.{start_rows, sign_by, with_signs, start_signs, start_drawn, start_by, start_within};

use factor::rows::{clear, multiply_by, project};
use run_limits::StartNumbers;
use slices::copy;

// Starts 0 and 1: the numbers' rows, projected.
#[tactic(auto, unfolding(crate::specs::Initialize::start_rows))]
pub fn start_rows(numbers: &[f64], rank: usize, m: usize, factor: &mut [f64])
    requires { (m * rank ≤ length numbers.now) × (length factor.old ≡ m * rank) }
    ensures { factor.new ≡ start_rows rank m numbers.now }
{
    let size = m * rank;
    copy(factor, &numbers[..size]);
    project(factor, rank, m);
}

// A sign as a double: −0.0 is +, a NaN −. Not `signum`, which gives −1.0 for −0.0 and a NaN for a NaN; nor `copysign`, which takes −0.0 for − and asks for no NaN.
fn sign(x: f64) -> f64
    ensures { result ≡ sign_by (Ieee.le zero64 x) }
{
    if x >= 0.0 {
        return 1.0;
    }
    -1.0
}

// The signs in the first column.
#[tactic(auto, unfolding(crate::specs::Initialize::with_signs, laws::specs::Turns::up_to))]
fn set_signs(signs: &[f64], rank: usize, m: usize, factor: &mut [f64])
    requires { (m ≤ length signs.now) × (length factor.old ≡ m * rank) × (1 ≤ rank) }
    ensures { factor.new ≡ with_signs rank m signs.now factor.old }
{
    for i in 0..m {
        let at = i * rank;
        factor[at] = sign(signs[i]);
    }
}

// Start 2 with no draws: the signs alone.
#[tactic(auto, unfolding(crate::specs::Initialize::start_signs))]
pub fn start_signs(signs: &[f64], rank: usize, m: usize, factor: &mut [f64])
    requires { (m ≤ length signs.now) × (length factor.old ≡ m * rank) × (1 ≤ rank) }
    ensures { factor.new ≡ start_signs rank m signs.now }
{
    clear(factor);
    set_signs(signs, rank, m, factor);
    project(factor, rank, m);
}

// Start 2 with draws: the signs over a hundredth of the projected draws.
#[tactic(auto, unfolding(crate::specs::Initialize::start_drawn, crate::specs::Initialize::start_rows))]
pub fn start_drawn(signs: &[f64], draws: &[f64], rank: usize, m: usize, factor: &mut [f64])
    requires m_in_bounds { (m ≤ length signs.now) × (length factor.old ≡ m * rank) × (1 ≤ rank) }
    requires rank_in_bounds { m * rank ≤ length draws.now }
    ensures { factor.new ≡ start_drawn rank m signs.now draws.now }
{
    start_rows(draws, rank, m, factor);
    multiply_by(factor, 1e-2);
    set_signs(signs, rank, m, factor);
    project(factor, rank, m);
}

// The factor by the start's kind.
fn start_by(start: StartNumbers, numbers: &[f64], rank: usize, m: usize, factor: &mut [f64])
    requires { (start_count (signs_in start) (draws_in start) rank m ≤ length numbers.now) × (length factor.old ≡ m * rank) × (1 ≤ rank) }
    ensures { factor.new ≡ start_by (signs_in start) (draws_in start) rank m numbers.now }
{
    match start {
        StartNumbers::Rows => start_rows(numbers, rank, m, factor),
        StartNumbers::Signs => start_signs(numbers, rank, m, factor),
        StartNumbers::SignsAndDraws => start_drawn(numbers, &numbers[m..], rank, m, factor),
    }
}

// The factor of a start in the first m rows of `factor`; a longer slice keeps its tail.
#[tactic(auto, unfolding(crate::specs::Initialize::start_within))]
pub fn prepare_initial_factor(
    start: StartNumbers,
    numbers: &[f64],
    rank: usize,
    m: usize,
    factor: &mut [f64],
)
    requires { (start_count (signs_in start) (draws_in start) rank m ≤ length numbers.now) × (m * rank ≤ length factor.old) × (1 ≤ rank) }
    ensures { factor.new ≡ start_within (signs_in start) (draws_in start) rank m numbers.now factor.old }
{
    let size = m * rank;
    start_by(start, numbers, rank, m, &mut factor[..size]);
}
