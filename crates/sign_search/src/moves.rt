// The changes of one choice from those of another: for each sign in which they differ, the entries of its row.
// `current, current_row, changes` stay apart, for the reason at the head of levels.rt.
ghost use Rattle.std.specs.Prelude.{◌≡◌, ◌*◌, ◌≤◌, ◌<◌, length};
ghost use Rattle.laws.specs.Lists.{elem};
ghost use Rattle.sign_words.specs.Signs.{flip_sign};
ghost use Rattle.sign_words.specs.Packed.{unpacked, flip_in};
ghost use Rattle.sign_search.specs.Clauses.{Sound, Changes, AtHand, MoveFits, Climbs, RowStart, Turned, Turns};
ghost use Rattle.tables.specs.Entries.{listed};

use crate::changes::weighed;
use local_search::rows::{flip_sign, sign_at};
use sign_words::distance::sign_apart;
use sign_words::words::flip_in;
use tables::entries::Entries;

// The first entry of row i or of a later row.
fn row_start(table: Entries, i: usize) -> usize
    requires { Climbs table.count (elem table.rows.now) }
    ensures { RowStart table.entry.count (elem table.entry.rows.now) i result }
{
    table.rows[..table.count].partition_point(|row| usize::from(*row) < i)
}

// Adds what the entries of row i bring, where sign i flips.
fn turn_entries(
    table: Entries,
    i: usize,
    from: usize,
    to: usize,
    current: &[u8],
    changes: &mut [i64],
)
    requires { Turns (listed table) current.now i from to changes.old }
    ensures { Turned (listed table.entry) current.now i table.entry.count changes.old changes.new }
{
    for k in from..to {
        let j = usize::from(table.cols[k]);
        changes[j] += weighed(8, table.values[k], sign_at(current, i), sign_at(current, j));
    }
}

// Flips sign i, and takes the changes along.
fn flip_current(table: Entries, i: usize, current: &mut [u8], changes: &mut [i64])
    requires { Sound (length current.old) (listed table) × (i < length current.old) × Changes (listed table) current.old changes.old }
    ensures { (current.new ≡ flip_sign i current.old)
        × Changes (listed table.entry) current.new changes.new }
{
    let own = changes[i];
    let from = row_start(table, i);
    let to = row_start(table, i + 1);
    turn_entries(table, i, from, to, current, changes);
    changes[i] = -own;
    flip_sign(current, i);
}

// Flips sign i of the choice at hand, in bytes and in words, and takes the changes along.
#[tactic(auto, using(crate::proofs::MoveLaws::hand_flipped))]
fn flip_at_hand(
    table: Entries,
    i: usize,
    current: &mut [u8],
    current_row: &mut [u64],
    changes: &mut [i64],
)
    requires { Sound (length current.old) (listed table) × (i < length current.old) × (length current.old ≤ 64 * length current_row.old) × AtHand (listed table) current.old current_row.old changes.old }
    ensures current_row_after { current_row.new ≡ flip_in i current_row.old }
    ensures at_hand { AtHand (listed table.entry) current.new current_row.new changes.new }
{
    flip_current(table, i, current, changes);
    flip_in(current_row, i);
}

// Goes from the choice at hand to another one, by the signs in which they differ, and takes the changes along.
#[tactic(auto, using(sign_words::proofs::ApartLaws::apart_at, sign_words::proofs::ApartLaws::apart_flipped))]
pub fn move_to(
    table: Entries,
    current: &mut [u8],
    current_row: &mut [u64],
    changes: &mut [i64],
    target: &[u64],
)
    requires { Sound (length current.old) (listed table) × MoveFits (length current.old) (length current_row.old) (length target.now) × AtHand (listed table) current.old current_row.old changes.old }
    ensures current_after { current.new ≡ unpacked (length current.old) target.now }
    ensures at_hand { AtHand (listed table.entry) current.new current_row.new changes.new }
{
    let m = current.len();
    let mut from = 0;
    // A `while`: the next sign is found from the words, so that nothing is counted. An unused bit is no sign.
    while let Some(i) = sign_apart(current_row, target, from) {
        if m <= i {
            return;
        }
        flip_at_hand(table, i, current, current_row, changes);
        from = i + 1;
    }
}
