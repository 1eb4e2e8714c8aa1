// Blocks of wagons, then the house.
ghost use Rattle.block_search.specs.Call.{BlockSearches};

use crate::lent::lent_hall;
use block_search::block_search;
use block_search::lent::{Blocks, Pins, Request};
use refusal::number_in;

#[unsafe(no_mangle)]
pub extern "C" fn wagonplan_raw_block_search(
    n: usize,
    count: usize,
    rows: &[u16],
    cols: &[u16],
    values: &[i64],
    c: &[i64],
    pinned: &[u16],
    stores: &[u8],
    present: &[u8],
    block_sizes: &[u16],
    block_wagons: &[u16],
    width: usize,
    choice: &mut [u8],
    falls: &mut [i64],
    workspace: &mut [u64],
) -> u8
    ensures { BlockSearches n count rows.now cols.now values.now c.now pinned.now stores.now
        present.now block_sizes.now block_wagons.now width choice.old falls.old workspace.old
        choice.new falls.new workspace.new result }
{
    let hall = lent_hall(n, count, rows, cols, values, c);
    let request = Request {
        pins: Pins {
            wagons: pinned,
            stores,
        },
        present,
        blocks: Blocks {
            sizes: block_sizes,
            wagons: block_wagons,
        },
        width,
    };
    number_in(block_search(hall, request, choice, falls, workspace))
}
