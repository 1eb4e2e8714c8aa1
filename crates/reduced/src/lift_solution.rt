// `lift_solution`: a reduced solution over the original indices.
ghost use Rattle.std.specs.Prelude.{◌≡◌, ◌≤◌, length};
ghost use Rattle.laws.specs.Lists.{fill};
ghost use Rattle.ieee.specs.Floats.{zero64};
ghost use Rattle.refusal.specs.Number.{numbered};
ghost use Rattle.limits.specs.Limits.{most_size};
ghost use Rattle.reduced.specs.Indices.{Mapped};
ghost use Rattle.reduced.specs.Lift.{lifted_of, lift_short, LiftLent, Lifts};

use crate::at_indices::put_each;
use crate::indices::{Indices, index_refusal};
use limits::MOST_SIZE;
use refusal::Refusal;

// 0.0 at the first places: a function, so that `put_lifted` sees our `fill` and not what the library says of a part of a slice. `clear` of sign_search is
// the same of i64: one for both would be a generic one in a crate below both, with a third contract for one line.
fn clear(size: usize, lifted: &mut [f64])
    requires { size ≤ length lifted.old }
    ensures { lifted.new ≡ fill (λ _. zero64) size lifted.old }
{
    lifted[..size].fill(0.0);
}

// 0.0 everywhere, over it the fixed values, over them the reduced solution, each at its index.
fn put_lifted(indices: Indices, fixed_value: &[f64], reduced_solution: &[f64], lifted: &mut [f64])
    requires lift_lent { let x = indices in LiftLent most_size x.size x.variable_map.now x.fixed_index.now (length fixed_value.now) (length reduced_solution.now) (length lifted.old) }
    requires mapped { Mapped most_size indices.size indices.variable_map.now indices.fixed_index.now }
    ensures { let x = indices.entry in lifted.new ≡ lifted_of x.size x.variable_map.now x.fixed_index.now fixed_value.now
        reduced_solution.now lifted.old }
{
    clear(indices.size, lifted);
    put_each(indices.fixed_index, fixed_value, lifted);
    put_each(indices.variable_map, reduced_solution, lifted);
}

// Whether a lent slice is too short, by its length.
#[tactic(auto, unfolding(crate::specs::Lift::lift_short, laws::specs::Refusal::any_of, laws::specs::Refusal::short))]
fn lift_short(indices: Indices, values: usize, solution: usize, lifted: usize) -> bool
    ensures { let x = indices.entry in result ≡ lift_short most_size x.size x.variable_map.now x.fixed_index.now values solution lifted }
{
    values < indices.fixed_index.len()
        || solution < indices.variable_map.len()
        || indices.size <= MOST_SIZE && lifted < indices.size
}

// The reduced solution over the original indices, in the first places, the others as they were; a refusal writes nothing.
pub fn lift_solution(
    indices: Indices,
    fixed_value: &[f64],
    reduced_solution: &[f64],
    lifted: &mut [f64],
) -> Result<(), Refusal>
    ensures { let x = indices.entry in Lifts x.size x.variable_map.now x.fixed_index.now fixed_value.now reduced_solution.now
        lifted.old (numbered result) lifted.new }
{
    if lift_short(
        indices,
        fixed_value.len(),
        reduced_solution.len(),
        lifted.len(),
    ) {
        return Err(Refusal::Slice);
    }
    index_refusal(indices)?;
    put_lifted(
        indices,
        fixed_value,
        reduced_solution,
        &mut lifted[..indices.size],
    );
    Ok(())
}
