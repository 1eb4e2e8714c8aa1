// The numbers of the call: 31, 13 to 16, 21, 22, 19. Nothing is written.
ghost use Rattle.std.specs.Prelude.{◌≡◌, false, ◌≤◌, ◌<◌, length};
ghost use Rattle.laws.specs.Sum.{total};
ghost use Rattle.laws.specs.Lists.{elem};
ghost use Rattle.refusal.specs.Number.{numbered};
ghost use Rattle.limits.specs.Limits.{most_wagons, most_blocks};
ghost use Rattle.tables.specs.Lent.{costs_of};
ghost use Rattle.block_search.specs.Numbers.{above_one, bad_list, bad_pins, bad_block, bad_blocks, bad_width, list_number, choices_short, blocks_short, lists_short, call_short, block_number};

use crate::lent::{Blocks, Pins, Request, WholeBlocks};
use limits::{MOST_BLOCKS, MOST_ENTRIES, MOST_WAGONS, MOST_WIDTH, SEARCH_WORKSPACE};
use reduced::indices::{Indices, index_refusal};
use refusal::Refusal;
use tables::check::{hall_number, short_table, too_short};
use tables::lent::LentHall;

// Whether one of the first bytes is above 1. `count` stands beside the slice as it does in the definition: cut by the three callers, each would prove
// besides that the bytes of the front are the slice's.
pub fn any_above(count: usize, bytes: &[u8]) -> bool
    requires { count ≤ length bytes.now }
    ensures { result ≡ above_one count bytes.now }
{
    bytes[..count].iter().any(|byte| 1 < *byte)
}

// 19.
#[tactic(auto, unfolding(crate::specs::Numbers::bad_width, laws::specs::Refusal::any_of))]
pub fn bad_width(width: usize) -> bool
    ensures { result ≡ bad_width width }
{
    width < 1 || MOST_WIDTH < width
}

// A request for n wagons, no more than 13 takes, whose slices are as long as 31 asks. Of the blocks it holds only where 22 takes so many.
#[derive(Clone, Copy)]
struct LongRequest<'a> {
    n: usize,
    lent: Request<'a>,
    ghost wagons_few: { n ≤ most_wagons },
    ghost stores_there: { length lent.pins.wagons.now ≤ length lent.pins.stores.now },
    ghost present_there: { n ≤ length lent.present.now },
    ghost wagons_there: { length lent.blocks.sizes.now ≤ most_blocks → total (length lent.blocks.sizes.now) (elem lent.blocks.sizes.now) ≤ length lent.blocks.wagons.now },
}

impl<'a> LongRequest<'a> {
    // Whether a wagon of the list is out of range or named twice.
    fn bad_list(self, list: &[u16]) -> bool
        ensures { result ≡ bad_list self.entry.n list.now }
    {
        let indices = Indices {
            size: self.n,
            variable_map: list,
            fixed_index: list,
        };
        index_refusal(indices).is_err()
    }

    // 21.
    #[tactic(auto, unfolding(crate::specs::Numbers::bad_pins, laws::specs::Refusal::any_of))]
    fn bad_pins(self) -> bool
        ensures { let q = self.entry.lent in result ≡ bad_pins self.entry.n q.pins.wagons.now q.pins.stores.now }
    {
        let pins = self.lent.pins;
        self.bad_list(pins.wagons) || any_above(pins.wagons.len(), pins.stores)
    }

    // Whether a block has a wagon out of range or twice.
    #[tactic(auto, unfolding(crate::specs::Numbers::bad_block, laws::specs::Lists::any_below, laws::specs::Sum::total))]
    fn bad_block(self, blocks: WholeBlocks) -> bool
        ensures { result ≡ bad_block self.entry.n blocks.entry.lent.sizes.now blocks.entry.lent.wagons.now }
    {
        let mut at = 0;
        for k in 0..blocks.lent.sizes.len() {
            let block = blocks.block(k, at);
            if self.bad_list(block) {
                return true;
            }
            at += block.len();
        }
        false
    }

    // 22.
    #[tactic(auto, unfolding(crate::specs::Numbers::bad_blocks, laws::specs::Refusal::any_of))]
    fn bad_blocks(self) -> bool
        ensures { let q = self.entry.lent in result ≡ bad_blocks self.entry.n q.present.now q.blocks.sizes.now q.blocks.wagons.now }
    {
        let lent = self.lent.blocks;
        any_above(self.n, self.lent.present)
            || MOST_BLOCKS < lent.sizes.len()
            || self.bad_block(WholeBlocks { lent })
    }

    // 21, 22, 19.
    #[tactic(auto, unfolding(crate::specs::Numbers::list_number, laws::specs::Refusal::first, laws::specs::Refusal::or_else))]
    fn list_number(self) -> Result<(), Refusal>
        ensures { let q = self.entry.lent in numbered result ≡ list_number self.entry.n q.pins.wagons.now q.pins.stores.now q.present.now
            q.blocks.sizes.now q.blocks.wagons.now q.width }
    {
        if self.bad_pins() {
            return Err(Refusal::Pin);
        }
        if self.bad_blocks() {
            return Err(Refusal::Block);
        }
        if bad_width(self.lent.width) {
            return Err(Refusal::Search);
        }
        Ok(())
    }
}

// 31 of c, the present choice and the choice, by their lengths.
#[tactic(auto, unfolding(crate::specs::Numbers::choices_short, laws::specs::Refusal::any_of))]
pub fn choices_short(n: usize, c: usize, present: usize, choice: usize) -> bool
    ensures { result ≡ choices_short n c present choice }
{
    let refused = MOST_WAGONS < n;
    too_short(refused, n, c) || too_short(refused, n, present) || too_short(refused, n, choice)
}

// How many wagons the blocks name.
fn wagons_named(sizes: &[u16]) -> usize
    requires { length sizes.now ≤ most_blocks }
    ensures { result ≡ total (length sizes.now) (elem sizes.now) }
{
    sizes.iter().map(|size| usize::from(*size)).sum()
}

// 31 of the blocks' wagons and of the falls, by their lengths.
#[tactic(auto, unfolding(crate::specs::Numbers::blocks_short, laws::specs::Refusal::any_of, laws::specs::Refusal::short))]
fn blocks_short(blocks: Blocks, falls: usize) -> bool
    ensures { result ≡ blocks_short blocks.entry.sizes.now (length blocks.entry.wagons.now) falls }
{
    if MOST_BLOCKS < blocks.sizes.len() {
        return false;
    }
    blocks.wagons.len() < wagons_named(blocks.sizes) || falls < blocks.sizes.len()
}

// 31 of the lists.
#[tactic(auto, unfolding(crate::specs::Numbers::lists_short, laws::specs::Refusal::any_of, laws::specs::Refusal::short))]
fn lists_short(pins: Pins, blocks: Blocks, falls: usize) -> bool
    ensures { result ≡ lists_short (length pins.entry.wagons.now) (length pins.entry.stores.now)
        blocks.entry.sizes.now (length blocks.entry.wagons.now) falls }
{
    pins.stores.len() < pins.wagons.len() || blocks_short(blocks, falls)
}

// 31.
#[tactic(auto, unfolding(crate::specs::Numbers::call_short, laws::specs::Refusal::any_of, laws::specs::Refusal::short))]
fn call_short(
    hall: LentHall,
    request: Request,
    choice: usize,
    falls: usize,
    workspace: usize,
) -> bool
    ensures { let t = costs_of hall.entry in let q = request.entry in result ≡ call_short t.n t.count t.rows t.cols t.values t.c q.pins.wagons.now
        q.pins.stores.now q.present.now q.blocks.sizes.now q.blocks.wagons.now choice falls workspace }
{
    short_table(MOST_ENTRIES, hall.table)
        || choices_short(hall.table.size, hall.c.len(), request.present.len(), choice)
        || lists_short(request.pins, request.blocks, falls)
        || workspace < SEARCH_WORKSPACE
}

// The first number that applies; the lengths are those of the slices that the call writes.
pub fn block_number(
    hall: LentHall,
    request: Request,
    choice: usize,
    falls: usize,
    workspace: usize,
) -> Result<(), Refusal>
    ensures { let t = costs_of hall.entry in let q = request.entry in numbered result ≡ block_number t.n t.count t.rows t.cols t.values t.c
        q.pins.wagons.now q.pins.stores.now q.present.now q.blocks.sizes.now q.blocks.wagons.now q.width choice falls workspace }
{
    if call_short(hall, request, choice, falls, workspace) {
        return Err(Refusal::Slice);
    }
    hall_number(hall)?;
    let long = LongRequest {
        n: hall.table.size,
        lent: request,
    };
    long.list_number()
}
