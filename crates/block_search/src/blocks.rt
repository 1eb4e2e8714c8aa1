// The first choice, the blocks in turn, and then the house.
// Arrays have a fixed size: no heap, a rule of the project (limits/src/lib.rt).
ghost use Rattle.std.specs.Prelude.{◌≡◌, cond, ◌<◌, ◌≤◌, length};
ghost use Rattle.laws.specs.Lists.{elem, elem_z, over, tabulate};
ghost use Rattle.limits.specs.Limits.{most_blocks};
ghost use Rattle.tables.specs.Entries.{listed};
ghost use Rattle.block_search.specs.Blocks.{named, held, block_moves, searched_from, fall_from, choice_from, block_fall, pinned_choice, falls_of, last_choice};
ghost use Rattle.block_search.specs.Call.{call_of};
ghost use Rattle.block_search.specs.Clauses.{HouseFits, PinsFit, ClearFits, moved_by};

use crate::lent::{Pins, Request, WholeBlocks};
use crate::search::search_held;
use limits::MOST_WAGONS;
use pinned::lift::copy_states;
use reduced::at_indices::put_each;
use tables::judged::JudgedHall;

// The state of a wagon that moves. `pinned` takes any byte above 1 for one and has no name for it, and no edge leads to `job_record`, which has FREE for its own.
const FREE: u8 = 2;

// Whether a list names wagon i.
fn names(list: &[u16], i: usize) -> bool
    ensures { result ≡ named list.now i }
{
    list.iter().any(|wagon| usize::from(*wagon) == i)
}

// Whom a search moves: the wagons that the block names, or, where there is none and the whole house is searched, all; but no pinned one.
#[derive(Clone, Copy)]
struct Moving<'a> {
    pinned: &'a [u16],
    block: Option<&'a [u16]>,
}

impl<'a> Moving<'a> {
    // Whether wagon i is free.
    fn is_free(self, i: usize) -> bool
        ensures { result ≡ moved_by self.entry.pinned.now self.entry.block i }
    {
        if names(self.pinned, i) {
            return false;
        }
        match self.block {
            Some(list) => names(list, i),
            None => true,
        }
    }

    // The state of wagon i: FREE, else its byte of b.
    fn state_of(self, b: &[u8], i: usize) -> u8
        requires { i < length b.now }
        ensures { result ≡ cond (moved_by self.entry.pinned.now self.entry.block i) 2 (elem b.now i) }
    {
        if self.is_free(i) {
            return FREE;
        }
        b[i]
    }

    // The states of n wagons.
    #[tactic(auto, unfolding(crate::specs::Blocks::held, laws::specs::Lists::tabulate))]
    fn hold(self, n: usize, b: &[u8], states: &mut [u8])
        requires { (n ≤ length b.now) × (n ≤ length states.old) }
        ensures { states.new ≡ over (held n (moved_by self.entry.pinned.now self.entry.block) b.now) states.old }
    {
        for i in 0..n {
            states[i] = self.state_of(b, i);
        }
    }
}

// The wagons that move searched from b, which takes the choice found. The fall in eighths.
fn search_moving(
    hall: JudgedHall,
    moving: Moving,
    width: usize,
    b: &mut [u8],
    workspace: &mut [u64],
) -> i64
    requires { HouseFits hall.n width b.old (length workspace.old) }
    ensures { let h = hall.entry in let moves = moved_by moving.entry.pinned.now moving.entry.block in (result ≡ fall_from h.n (listed h.table) (elem_z h.c.now) width moves b.old)
        × (b.new ≡ searched_from h.n (listed h.table) (elem_z h.c.now) width moves b.old) }
{
    let mut states = [0u8; MOST_WAGONS];
    moving.hold(hall.n, b, &mut states);
    search_held(hall, &states[..hall.n], width, b, workspace)
}

// Each block in turn, from b, which takes the choice after the last.
#[tactic(auto, unfolding(crate::specs::Blocks::choice_from, laws::specs::Lists::tabulate, laws::specs::Sum::total, laws::specs::Turns::up_to))]
fn search_blocks(
    hall: JudgedHall,
    pinned: &[u16],
    blocks: WholeBlocks,
    width: usize,
    b: &mut [u8],
    falls: &mut [i64],
    workspace: &mut [u64],
)
    requires house_fits { HouseFits hall.n width b.old (length workspace.old) }
    requires sizes_in_bounds { (length blocks.lent.sizes.now ≤ length falls.old) × (length blocks.lent.sizes.now ≤ most_blocks) }
    ensures { let h = hall.entry in let moves = block_moves pinned.now blocks.entry.lent.sizes.now blocks.entry.lent.wagons.now in
        (b.new ≡ choice_from h.n (listed h.table) (elem_z h.c.now) width moves b.old (length blocks.entry.lent.sizes.now))
        × (falls.new ≡ over (tabulate (block_fall h.n (listed h.table) (elem_z h.c.now) width moves b.old) (length blocks.entry.lent.sizes.now)) falls.old) }
{
    let mut at = 0;
    for k in 0..blocks.lent.sizes.len() {
        let block = blocks.block(k, at);
        let moving = Moving {
            pinned,
            block: Some(block),
        };
        falls[k] = search_moving(hall, moving, width, b, workspace);
        at += block.len();
    }
}

// The present choice with the pinned wagons in their stores.
fn first_choice(n: usize, pins: Pins, present: &[u8], b: &mut [u8])
    requires { PinsFit n pins.wagons.now pins.stores.now present.now × (length b.old ≡ n) }
    ensures { b.new ≡ pinned_choice n pins.entry.wagons.now pins.entry.stores.now present.now }
{
    copy_states(n, present, b);
    put_each(pins.wagons, pins.stores, b);
}

// The whole of an accepted call: the first choice, each block, then all wagons that aren't pinned.
pub fn clear_house(
    hall: JudgedHall,
    request: Request,
    b: &mut [u8],
    falls: &mut [i64],
    workspace: &mut [u64],
)
    requires { let q = request in ClearFits hall.n q.width q.pins.wagons.now q.pins.stores.now q.present.now q.blocks.sizes.now q.blocks.wagons.now
        b.old (length falls.old) (length workspace.old) }
    ensures { let h = hall.entry in let r = request.entry in let q = call_of h.n h.table.count h.table.rows.now h.table.cols.now h.table.values.now h.c.now
        r.pins.wagons.now r.pins.stores.now r.present.now r.blocks.sizes.now r.blocks.wagons.now r.width in
        (b.new ≡ last_choice q) × (falls.new ≡ over (falls_of q) falls.old) }
{
    let pinned = request.pins.wagons;
    let width = request.width;
    first_choice(hall.n, request.pins, request.present, b);
    let blocks = WholeBlocks {
        lent: request.blocks,
    };
    search_blocks(hall, pinned, blocks, width, b, falls, workspace);
    let moving = Moving {
        pinned,
        block: None,
    };
    search_moving(hall, moving, width, b, workspace);
}
