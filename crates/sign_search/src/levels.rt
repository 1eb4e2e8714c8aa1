// Level by level: level 1 has all children of the start, level k + 1 the first `width` of those of level k.
// `current, current_row, changes` stay apart: as a struct of three `&mut` (tried on `flip_at_hand`, where no goal is left) a function that takes it
// promises besides that three references keep their names, and each length is `hand.old.signs.now`'s. No plainer.
// `objectives, signs, count, width` stay apart, for the reason at the head of level.rt in local_search.
// `from_objectives, from_signs, from_count` stay apart: `expand_level` alone reads them, of a level that is its caller's to write.
ghost use Rattle.std.specs.Prelude.{◌≡◌, [], ◌≤◌, length, take};
ghost use Rattle.sign_words.specs.Packed.{unpacked, Tidy};
ghost use Rattle.local_search.specs.Level.{sign_level, TidyLevel, Ascending};
ghost use Rattle.local_search.specs.Children.{parent_of, Appended, Kept};
ghost use Rattle.sign_search.specs.Within.{bounds};
ghost use Rattle.sign_search.specs.Clauses.{Changes, AtHand, RowExpands, RowAppends, LevelExpands, NextLevel, AdvanceFits, BoundsFit, table_children};
ghost use Rattle.tables.specs.Entries.{listed};

use crate::changes::changes_of;
use crate::moves::move_to;
use crate::within::{Leeway, Reach, expand_near};
use local_search::children::{Parent, first_level};
use local_search::level::copy_objectives;
use sign_words::words::copy;
use tables::entries::Entries;

// Puts a parent's children in that are within the bounds, by index.
pub fn expand_row(
    table: Entries,
    objective: i64,
    parent: &[u64],
    current: &mut [u8],
    current_row: &mut [u64],
    changes: &mut [i64],
    objectives: &mut [i64],
    signs: &mut [u64],
    count: usize,
    width: usize,
    reach: Reach,
) -> usize
    requires { RowExpands (listed table) (length parent.now) (parent_of objective (unpacked (length current.old) parent.now))
        count width (length changes.old) (length objectives.old) (length signs.old) × (length current_row.old ≡ length parent.now) × AtHand (listed table) current.old current_row.old changes.old × Ascending (take count objectives.old)
        × BoundsFit reach.leeway.flips reach.origin.now (length parent.now) (length current.old) × Tidy (length current.old) parent.now }
    ensures kept { Kept width (sign_level (length parent.now) (length current.old) count objectives.old signs.old)
        (table_children (listed table.entry) (bounds reach.entry.leeway.flips reach.entry.leeway.most (unpacked (length current.old) reach.entry.origin.now)) (length current.old)
        (parent_of objective (unpacked (length current.old) parent.now)))
        (sign_level (length parent.now) (length current.old) result objectives.new signs.new) result }
    ensures at_hand { AtHand (listed table.entry) current.new current_row.new changes.new }
    ensures tidy { Tidy (length current.old) parent.now
        → TidyLevel (length parent.now) (length current.old) count objectives.old signs.old
        → TidyLevel (length parent.now) (length current.old) result objectives.new signs.new }
{
    move_to(table, current, current_row, changes, parent);
    let at_hand = Parent {
        objective,
        changes,
        row: parent,
    };
    expand_near(at_hand, objectives, signs, count, width, current, reach)
}

// Level 1: all children of the start that are within the bounds, by index.
pub fn append_row(
    table: Entries,
    objective: i64,
    start: &[u8],
    start_row: &[u64],
    changes: &mut [i64],
    objectives: &mut [i64],
    signs: &mut [u64],
    leeway: Leeway,
) -> usize
    requires { RowAppends (listed table) (length start_row.now) (parent_of objective start.now) (length changes.old)
        (length objectives.old) (length signs.old) × (unpacked (length start.now) start_row.now ≡ start.now) × (leeway.flips ≤ length start.now) }
    ensures appended { Appended [] (table_children (listed table.entry) (bounds leeway.flips leeway.most start.now)
        (length start.now)
        (parent_of objective start.now))
        (sign_level (length start_row.now) (length start.now) result objectives.new signs.new) result (length start.now) }
    ensures changes { Changes (listed table.entry) start.now changes.new }
    ensures tidy { Tidy (length start.now) start_row.now
        → TidyLevel (length start_row.now) (length start.now) result objectives.new signs.new }
{
    changes_of(table, start, changes);
    let first = leeway.first_flips();
    let parent = Parent {
        objective,
        changes,
        row: start_row,
    };
    first_level(parent, first, objectives, signs)
}

// Level k + 1 from level k: the children by parent, then index, the first `width` of them in order.
// Row k of `from_signs` is cut here, as in `keep_least` of local_search, and in no function of both, as `row` of factor is for f64: the lemmas on it
// (`part_long`, `parent_is`, `tidy_part`) speak of the part as it is cut, and it would have to be asked for what the cut asks for now.
pub fn expand_level(
    table: Entries,
    words: usize,
    from_objectives: &[i64],
    from_signs: &[u64],
    from_count: usize,
    current: &mut [u8],
    current_row: &mut [u64],
    changes: &mut [i64],
    objectives: &mut [i64],
    signs: &mut [u64],
    width: usize,
    reach: Reach,
) -> usize
    requires { LevelExpands (listed table) words (length current.old) from_count width from_objectives.now
        from_signs.now (length changes.old) (length objectives.old) (length signs.old) × (length current_row.old ≡ words) × AtHand (listed table) current.old current_row.old changes.old
        × BoundsFit reach.leeway.flips reach.origin.now words (length current.old) × TidyLevel words (length current.old) from_count from_objectives.now from_signs.now }
    ensures next_level { NextLevel (listed table.entry) (bounds reach.entry.leeway.flips reach.entry.leeway.most (unpacked (length current.old) reach.entry.origin.now)) (length current.old) width
        (sign_level words (length current.old) from_count from_objectives.now from_signs.now)
        (sign_level words (length current.old) result objectives.new signs.new) result }
    ensures at_hand { AtHand (listed table.entry) current.new current_row.new changes.new }
    ensures tidy { TidyLevel words (length current.old) from_count from_objectives.now from_signs.now
        → TidyLevel words (length current.old) result objectives.new signs.new }
{
    let mut kept = 0;
    for k in 0..from_count {
        let at = k * words;
        let end = at + words;
        let objective = from_objectives[k];
        kept = expand_row(
            table,
            objective,
            &from_signs[at..end],
            current,
            current_row,
            changes,
            objectives,
            signs,
            kept,
            width,
            reach,
        );
    }
    kept
}

// Makes the next level in the other buffers, and copies it back.
pub fn advance(
    table: Entries,
    words: usize,
    current: &mut [u8],
    current_row: &mut [u64],
    changes: &mut [i64],
    objectives: &mut [i64],
    signs: &mut [u64],
    count: usize,
    next_objectives: &mut [i64],
    next_signs: &mut [u64],
    width: usize,
    reach: Reach,
) -> usize
    requires { AdvanceFits (listed table) words (length current.old) count width objectives.old signs.old
        (length changes.old) (length next_objectives.old) (length next_signs.old) × (length current_row.old ≡ words) × AtHand (listed table) current.old current_row.old changes.old × BoundsFit reach.leeway.flips reach.origin.now words (length current.old)
        × TidyLevel words (length current.old) count objectives.old signs.old }
    ensures next_level { NextLevel (listed table.entry) (bounds reach.entry.leeway.flips reach.entry.leeway.most (unpacked (length current.old) reach.entry.origin.now)) (length current.old) width
        (sign_level words (length current.old) count objectives.old signs.old)
        (sign_level words (length current.old) result objectives.new signs.new) result }
    ensures at_hand { AtHand (listed table.entry) current.new current_row.new changes.new }
    ensures tidy { TidyLevel words (length current.old) count objectives.old signs.old
        → TidyLevel words (length current.old) result objectives.new signs.new }
{
    let kept = expand_level(
        table,
        words,
        objectives,
        signs,
        count,
        current,
        current_row,
        changes,
        next_objectives,
        next_signs,
        width,
        reach,
    );
    let taken = kept * words;
    copy_objectives(objectives, next_objectives, kept);
    copy(&mut signs[0..taken], &next_signs[0..taken]);
    kept
}
