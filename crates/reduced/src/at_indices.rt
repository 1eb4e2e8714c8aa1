// Values put at their indices.
ghost use Rattle.std.specs.Prelude.{◌≡◌, ◌≤◌, length, get_or};
ghost use Rattle.laws.specs.Lists.{elem};
ghost use Rattle.reduced.specs.Indices.{put_each, Within};

// Each value at its index, in order.
#[tactic(auto, unfolding(laws::specs::Turns::up_to))]
pub fn put_each<T: Copy>(indices: &[u16], values: &[T], to: &mut [T])
    requires { Within (length to.old) indices.now × (length indices.now ≤ length values.now) }
    ensures { (d : T) → to.new ≡ put_each (elem indices.now) (λ j. get_or values.now j d) (length indices.now) to.old }
{
    for j in 0..indices.len() {
        let index = usize::from(indices[j]);
        to[index] = values[j];
    }
}
