// Small houses in full.
ghost use Rattle.exhaustive.specs.Contract.{Walks};
ghost use Rattle.exports.specs.Answers.{by_number, Stays};

use crate::answers::hand_both;
use crate::lent::lent_hall;
use exhaustive::least_choice;

#[unsafe(no_mangle)]
pub extern "C" fn wagonplan_raw_least_choice(
    n: usize,
    count: usize,
    rows: &[u16],
    cols: &[u16],
    values: &[i64],
    c: &[i64],
    b: &mut [u8],
    cost: &mut i64,
    visited: &mut u64,
) -> u8
    ensures walks { Walks n count rows.now cols.now values.now c.now b.old (by_number result (record { cost = cost.new; visited = visited.new })) b.new }
    ensures stays { Stays result cost.old cost.new × Stays result visited.old visited.new }
{
    let hall = lent_hall(n, count, rows, cols, values, c);
    let walked = least_choice(hall, b);
    let told = walked.map(|found| (found.cost, found.visited));
    hand_both(told, cost, visited)
}
