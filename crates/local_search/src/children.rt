// The children of a parent whose changes are listed, put into a level: in order of their objectives, or one behind the other.
// `objectives, signs, count, width` stay apart, for the reason at the head of level.rt.
ghost use Rattle.std.specs.Prelude.{false, [], ◌≡◌, suc, ◌≤◌, length, take};
ghost use Rattle.local_search.specs.Level.{level_of, Ascending};
ghost use Rattle.local_search.specs.SignSearch.{improves_c, child_at};
ghost use Rattle.local_search.specs.Children.{change_of, parent_choice, flip_w, listed_children, Appended, Appends, Expands, Kept, ListedSafe};
ghost use Rattle.local_search.specs.Enters.{enters, enters_first, limit_of, below_limit, FirstFrom, Untouched};

use crate::level::{insert_child, insert_objective, insert_row};

// A parent: its objective, the changes of it by flipping each of its signs, and its row of words.
#[derive(Clone, Copy)]
pub struct Parent<'a> {
    pub objective: i64,
    pub changes: &'a [i64],
    pub row: &'a [u64],
}

// Puts child `i` of the parent in, where it enters the level; else nothing is written.
pub fn consider_child(
    parent: Parent,
    i: usize,
    objectives: &mut [i64],
    signs: &mut [u64],
    count: usize,
    width: usize,
) -> usize
    requires { Expands parent.changes.now (suc i) (parent_choice parent) count width (length objectives.old) (length signs.old) × Ascending (take count objectives.old) }
    ensures kept { let p = parent.entry in Kept width (level_of (length p.row.now) count objectives.old signs.old)
        (child_at (improves_c (change_of p.changes.now)) (flip_w p.changes.now) (parent_choice p) i)
        (level_of (length p.row.now) result objectives.new signs.new) result }
    ensures stays_out { let p = parent.entry in enters width (take count objectives.old) p.changes.now (parent_choice p) i ≡ false
        → Untouched objectives.old objectives.new signs.old signs.new count result }
{
    let d = parent.changes[i];
    if d < 0 {
        return insert_child(
            objectives,
            signs,
            count,
            width,
            parent.objective + d,
            parent.row,
            i,
        );
    }
    count
}

// The objective below which a child enters the level: its parent's, or the last of a full level where that is lower.
#[tactic(auto, using(crate::proofs::LimitLaws::limit_with_room, crate::proofs::LimitLaws::limit_full))]
pub fn entry_limit(objectives: &[i64], count: usize, width: usize, objective: i64) -> i64
    requires { (1 ≤ width) × (count ≤ length objectives.now) }
    ensures { result ≡ limit_of width count objectives.now objective }
{
    if count < width {
        return objective;
    }
    objective.min(objectives[count - 1])
}

// The first child from `from` on, of those of the first `m` signs, that enters the level. A loop: as `find` on the range (transcribed to Rust, callgrind)
// it took 1.11 of the instructions, and a search may take no more than it did.
pub fn next_child(
    parent: Parent,
    from: usize,
    m: usize,
    objectives: &[i64],
    count: usize,
    width: usize,
) -> Option<usize>
    requires { (from ≤ m) × (m ≤ length parent.changes.now) × ListedSafe parent.changes.now m parent.objective × (1 ≤ width) × (count ≤ length objectives.now) }
    ensures { let p = parent.entry in FirstFrom (below_limit p.changes.now p.objective (limit_of width count objectives.now p.objective)) from m result }
{
    let limit = entry_limit(objectives, count, width, parent.objective);
    for i in from..m {
        if parent.objective + parent.changes[i] < limit {
            return Some(i);
        }
    }
    None
}

// Puts the parent's children in, by index.
#[tactic(auto, using(crate::proofs::LimitLaws::first_is))]
pub fn expand_parent(
    parent: Parent,
    m: usize,
    objectives: &mut [i64],
    signs: &mut [u64],
    count: usize,
    width: usize,
) -> usize
    requires { Expands parent.changes.now m (parent_choice parent) count width (length objectives.old) (length signs.old) × Ascending (take count objectives.old) }
    ensures { let p = parent.entry in Kept width (level_of (length p.row.now) count objectives.old signs.old)
        (listed_children p.changes.now m (parent_choice p))
        (level_of (length p.row.now) result objectives.new signs.new) result }
{
    let mut kept = count;
    let mut from = 0;
    // A `while`: the next child is the one that enters the level as it then stands, so that nothing is counted.
    while let Some(i) = next_child(parent, from, m, objectives, kept, width) {
        kept = consider_child(parent, i, objectives, signs, kept, width);
        from = i + 1;
    }
    kept
}

// Puts child `i` of the start behind the others, where it exists; else nothing is written.
pub fn append_child(
    start: Parent,
    i: usize,
    objectives: &mut [i64],
    signs: &mut [u64],
    count: usize,
) -> usize
    requires { Appends start.changes.now (suc i) (parent_choice start) (length objectives.old) (length signs.old) × (count ≤ i) }
    ensures appended { let p = start.entry in Appended (level_of (length p.row.now) count objectives.old signs.old)
        (child_at (improves_c (change_of p.changes.now)) (flip_w p.changes.now) (parent_choice p) i)
        (level_of (length p.row.now) result objectives.new signs.new) result (suc i) }
    ensures stays_out { let p = start.entry in enters_first p.changes.now (parent_choice p) i ≡ false
        → Untouched objectives.old objectives.new signs.old signs.new count result }
{
    let change = start.changes[i];
    if change < 0 {
        insert_objective(objectives, count, count, start.objective + change);
        insert_row(signs, count, count, start.row, i);
        return count + 1;
    }
    count
}

// Level 1: all children of the start, by index.
#[tactic(auto, using(crate::proofs::ExpandLaws::append_none, crate::proofs::LevelLaws::level_empty))]
pub fn first_level(start: Parent, m: usize, objectives: &mut [i64], signs: &mut [u64]) -> usize
    requires { Appends start.changes.now m (parent_choice start) (length objectives.old) (length signs.old) }
    ensures { let p = start.entry in Appended [] (listed_children p.changes.now m (parent_choice p))
        (level_of (length p.row.now) result objectives.new signs.new) result m }
{
    let mut count = 0;
    for i in 0..m {
        count = append_child(start, i, objectives, signs, count);
    }
    count
}
