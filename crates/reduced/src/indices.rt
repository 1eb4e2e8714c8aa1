// Number 20: the original size, the map and the fixed indices. Nothing here is written but a local array.
// Arrays have a fixed size: no heap, a rule of the project (limits/src/lib.rt).
ghost use Rattle.std.specs.Prelude.{◌≡◌};
ghost use Rattle.laws.specs.Refusal.{◌if◌};
ghost use Rattle.refusal.specs.Number.{numbered};
ghost use Rattle.limits.specs.Limits.{most_size};
ghost use Rattle.reduced.specs.Indices.{greatest, outside, twice, index_refused, Within};

use limits::MOST_SIZE;
use refusal::Refusal;

// The greatest index, 0 where there is none. Not the library's `max`: that takes 2,846 instructions for 512 indices, this pass 254.
#[tactic(auto, unfolding(crate::specs::Indices::greatest, laws::specs::Turns::up_to))]
fn greatest(indices: &[u16]) -> u16
    ensures { result ≡ greatest indices.now }
{
    let mut most: u16 = 0;
    for &index in indices.iter() {
        most = most.max(index);
    }
    most
}

// Whether an index is not below the size: the greatest is compared. The library's `any` takes 3,596 instructions for 512 indices, `greatest` 254.
fn any_outside(size: usize, indices: &[u16]) -> bool
    ensures { result ≡ outside size indices.now }
{
    if indices.len() == 0 {
        return false;
    }
    size <= usize::from(greatest(indices))
}

// Whether an index is in the map twice: `seen` marks those passed. It goes on to the end: 512 indices take 2,687 instructions, and 4,214 with a return in the loop.
#[tactic(auto, unfolding(crate::specs::Indices::twice, laws::specs::Lists::any_below, laws::specs::Turns::up_to))]
fn any_twice(variable_map: &[u16]) -> bool
    requires { Within most_size variable_map.now }
    ensures { result ≡ twice variable_map.now }
{
    let mut seen = [false; MOST_SIZE];
    let mut found = false;
    for &original in variable_map.iter() {
        let index = usize::from(original);
        found |= seen[index];
        seen[index] = true;
    }
    found
}

// The original size, the original index of each new one, and the fixed original indices, as they are lent.
#[derive(Clone, Copy)]
pub struct Indices<'a> {
    pub size: usize,
    pub variable_map: &'a [u16],
    pub fixed_index: &'a [u16],
}

// 20: a size, a map index or a fixed index out of its limits, or a map index twice.
#[tactic(auto, unfolding(crate::specs::Indices::index_refused, laws::specs::Refusal::any_of))]
pub fn index_refusal(indices: Indices) -> Result<(), Refusal>
    ensures { let x = indices.entry in numbered result ≡ 20 if index_refused most_size x.size x.variable_map.now x.fixed_index.now }
{
    if MOST_SIZE < indices.size
        || any_outside(indices.size, indices.variable_map)
        || any_twice(indices.variable_map)
        || any_outside(indices.size, indices.fixed_index)
    {
        return Err(Refusal::Index);
    }
    Ok(())
}
