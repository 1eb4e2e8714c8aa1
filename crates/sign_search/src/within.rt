// Which children the search may take: those of the first signs, as many as may flip, that lie near enough to the start.
// `objectives, signs, count, width` stay apart, for the reason at the head of level.rt in local_search.
ghost use Rattle.std.specs.Prelude.{◌≡◌, true, false, cond, suc, ◌*◌, ◌≤◌, ◌<◌, eqb, length, take};
ghost use Rattle.sign_words.specs.Signs.{sign_digit};
ghost use Rattle.sign_words.specs.Packed.{unpacked};
ghost use Rattle.sign_words.specs.Distance.{places_apart};
ghost use Rattle.local_search.specs.Level.{level_of, Ascending};
ghost use Rattle.local_search.specs.SignSearch.{improving, child_at};
ghost use Rattle.local_search.specs.Children.{parent_choice, flip_w, Expands, Kept};
ghost use Rattle.sign_search.specs.Within.{goes_back, stays_near};
ghost use Rattle.sign_search.specs.Clauses.{BothPacked};

use local_search::children::{Parent, consider_child, expand_parent};
use sign_words::distance::distance;
use sign_words::pack::sign_digit;
use sign_words::words::sign_in;

// How far a search may go: the first `flips` signs may flip, and at most `most` signs may differ from the start's.
#[derive(Clone, Copy)]
pub struct Leeway {
    pub flips: usize,
    pub most: usize,
}

impl Leeway {
    // How many first signs of the start may flip: none where no choice but the start is near enough.
    pub fn first_flips(self) -> usize
        ensures { result ≡ cond (eqb self.most 0) 0 self.flips }
    {
        if self.most == 0 { 0 } else { self.flips }
    }
}

// The same from a start, which is lent in words.
#[derive(Clone, Copy)]
pub struct Reach<'a> {
    pub origin: &'a [u64],
    pub leeway: Leeway,
}

// Whether two signs differ. `same_sign` of tables, which says the opposite, is that crate's own, by a definition of its own: in its place `back_child`
// would need besides that the two definitions agree.
fn differs(x: u8, y: u8) -> bool
    ensures { result ≡ cond (eqb (sign_digit x) (sign_digit y)) false true }
{
    sign_digit(x) != sign_digit(y)
}

// In how many signs a choice, which is in `current` too, differs from the start. `as`: no `From` takes a u64 to a usize.
#[tactic(auto, using(crate::proofs::NearLaws::words_apart))]
fn places_apart(current: &[u8], parent: &[u64], origin: &[u64]) -> usize
    requires { (length parent.now ≡ length origin.now) × (length parent.now < 65536) × BothPacked current.now parent.now origin.now }
    ensures { result ≡ places_apart current.now (unpacked (length current.now) origin.now) }
{
    distance(parent, origin) as usize
}

// Puts child `i` of the parent in, where it goes back to the start's sign.
fn back_child(
    parent: Parent,
    i: usize,
    objectives: &mut [i64],
    signs: &mut [u64],
    count: usize,
    width: usize,
    current: &[u8],
    origin: &[u64],
) -> usize
    requires { Expands parent.changes.now (suc i) (parent_choice parent) count width (length objectives.old) (length signs.old)
        × Ascending (take count objectives.old) × (i < length current.now) × (i < 64 * length origin.now) }
    ensures { let p = parent.entry in Kept width (level_of (length p.row.now) count objectives.old signs.old)
        (child_at (goes_back p.changes.now current.now (unpacked (length current.now) origin.now)) (flip_w p.changes.now) (parent_choice p) i)
        (level_of (length p.row.now) result objectives.new signs.new) result }
{
    let sign = sign_in(origin, i);
    if !differs(current[i], sign) {
        return count;
    }
    consider_child(parent, i, objectives, signs, count, width)
}

// Puts the parent's children in that go back to the start's sign, by index.
#[tactic(auto, using(local_search::proofs::ExpandLaws::children_none))]
fn expand_back(
    parent: Parent,
    flips: usize,
    objectives: &mut [i64],
    signs: &mut [u64],
    count: usize,
    width: usize,
    current: &[u8],
    origin: &[u64],
) -> usize
    requires { Expands parent.changes.now flips (parent_choice parent) count width (length objectives.old) (length signs.old)
        × Ascending (take count objectives.old) × (flips ≤ length current.now) × (flips ≤ 64 * length origin.now) }
    ensures { let p = parent.entry in Kept width (level_of (length p.row.now) count objectives.old signs.old)
        (improving (goes_back p.changes.now current.now (unpacked (length current.now) origin.now)) (flip_w p.changes.now) flips (parent_choice p))
        (level_of (length p.row.now) result objectives.new signs.new) result }
{
    let mut kept = count;
    for i in 0..flips {
        kept = back_child(parent, i, objectives, signs, kept, width, current, origin);
    }
    kept
}

// Puts the parent's children in that stay near enough, by index; its signs are in `current` too. Nearer than `most` it is every child, and at `most`
// those that go back; where `most` is as many signs as there are, no distance is asked for.
// Two branches: in one condition the distance, which what follows needs too, would be asked for twice, or where it isn't now.
pub fn expand_near(
    parent: Parent,
    objectives: &mut [i64],
    signs: &mut [u64],
    count: usize,
    width: usize,
    current: &[u8],
    reach: Reach,
) -> usize
    requires { Expands parent.changes.now reach.leeway.flips (parent_choice parent) count width (length objectives.old) (length signs.old)
        × Ascending (take count objectives.old) × (reach.leeway.flips ≤ length current.now) × BothPacked current.now parent.row.now reach.origin.now }
    ensures { let p = parent.entry in Kept width (level_of (length p.row.now) count objectives.old signs.old)
        (improving (stays_near p.changes.now reach.entry.leeway.most (unpacked (length current.now) reach.entry.origin.now) current.now) (flip_w p.changes.now) reach.entry.leeway.flips (parent_choice p))
        (level_of (length p.row.now) result objectives.new signs.new) result }
{
    if current.len() <= reach.leeway.most {
        return expand_parent(parent, reach.leeway.flips, objectives, signs, count, width);
    }
    let apart = places_apart(current, parent.row, reach.origin);
    if apart < reach.leeway.most {
        return expand_parent(parent, reach.leeway.flips, objectives, signs, count, width);
    }
    if 1 < apart - reach.leeway.most {
        return count;
    }
    expand_back(
        parent,
        reach.leeway.flips,
        objectives,
        signs,
        count,
        width,
        current,
        reach.origin,
    )
}
