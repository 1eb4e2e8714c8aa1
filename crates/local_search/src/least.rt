// The first of least objective. The level's `objectives, signs, count` stay apart, for the reason at the head of level.rt.
ghost use Rattle.std.specs.Prelude.{◌≡◌, ◌*◌, ◌≤◌, cond, length};
ghost use Rattle.std.specs.Int.Signed.{lt_z};
ghost use Rattle.local_search.specs.LocalSearch.{best};
ghost use Rattle.local_search.specs.Level.{below, level_of};
ghost use Rattle.local_search.specs.Children.{parent_of};

use sign_words::words::copy;

// The better of the choice kept so far and another, in bytes or in words; of equals the one kept so far. It is `better` of the two (`better_kept` in
// proofs/Better).
pub fn keep_better<T: Copy>(least: i64, kept: &mut [T], objective: i64, row: &[T]) -> i64
    requires { length kept.old ≡ length row.now }
    ensures least_after { result ≡ cond (lt_z objective least) objective least }
    ensures kept_after { kept.new ≡ cond (lt_z objective least) row.now kept.old }
{
    if objective < least {
        copy(kept, row);
        return objective;
    }
    least
}

// The first of least objective among the choice kept so far and the level's.
#[tactic(auto, using(crate::proofs::ExpandLaws::least_none))]
pub fn keep_least(
    objectives: &[i64],
    signs: &[u64],
    count: usize,
    least: i64,
    kept: &mut [u64],
) -> i64
    requires { (count ≤ length objectives.now) × (count * length kept.old ≤ length signs.now) }
    ensures { parent_of result kept.new ≡ best below (parent_of least kept.old) (level_of (length kept.old) count objectives.now signs.now) }
{
    let m = kept.len();
    let mut low = least;
    for k in 0..count {
        let at = k * m;
        let end = at + m;
        let objective = objectives[k];
        low = keep_better(low, kept, objective, &signs[at..end]);
    }
    low
}
