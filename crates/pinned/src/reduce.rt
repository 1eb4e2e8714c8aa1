// `reduce`: the quadratic and linear costs among the free wagons, and the constant that the held ones cost. A wagon's state is 0 or 1 where it is held in
// that store, above 1 where it is free.
// Arrays have a fixed size: no heap, a rule of the project (limits/src/lib.rt).
ghost use Rattle.std.specs.Prelude.{◌≡◌, ℕ, ◌+◌, ◌*◌, ◌<◌, ◌≤◌, length, replicate, nat_abs, ◌+ℤ◌, ◌*ℤ◌};
ghost use Rattle.std.specs.Int.{w64};
ghost use Rattle.std.proofs.Common.{SFits};
ghost use Rattle.laws.specs.Sum.{sum};
ghost use Rattle.laws.specs.Lists.{elem, elem_z, fill, tabulate, over};
ghost use Rattle.tables.specs.Table.{InRange, magnitude_of};
ghost use Rattle.tables.specs.Stored.{Room};
ghost use Rattle.tables.specs.Cost.{choice_at};
ghost use Rattle.limits.specs.Limits.{most_wagons, most_magnitude};
ghost use Rattle.pinned.specs.Pinned.{free_of, held_byte, Shrinks, beside_term, held_term, BesideFits};
ghost use Rattle.tables.specs.Entries.{listed};

use crate::entries::{Placed, free_entries, free_places};
use limits::MOST_WAGONS;
use tables::entries::Entries;
use tables::judged::JudgedHall;
use tables::objective::chosen_once;
use tables::staying::put_kept;

// A state is a byte: 0 and 1 are stores, any other is free. They stay bytes and become no enum: the definitions and the theorems speak of any byte, and a held
// one is copied into a choice as it stands. `n` stays beside them: it is the hall's, more states than it may be lent, and of a slice that is cut to n each
// definition would speak through `take n`.
// `c`, `sums` and `held` are in no struct: what is asked of c and sums is another thing in each function (that one sum fits, that those of the free wagons do,
// a bound at i, a bound below n), so that no clause would go, and where the linear costs are made `held` isn't read.
// What is written stays four slices, for the reason at the head of entries.rt.

// How many wagons are free, how many entries they have, and what the held ones cost.
#[derive(Drop)]
pub struct Shrunk {
    pub free: usize,
    pub count: usize,
    pub constant: i64,
}

// The free wagons, in rising order; how many they are. Narrowed by `as`: i is below n, and so below 65,536.
#[tactic(auto, unfolding(crate::specs::Pinned::free_of, laws::specs::Lists::kept))]
pub fn free_wagons(n: usize, states: &[u8], free: &mut [u16]) -> usize
    requires { (n ≤ most_wagons) × (n ≤ length states.now) × (n ≤ length free.old) }
    ensures { (free.new ≡ over (free_of n states.now) free.old) × (result ≡ length (free_of n states.now)) }
{
    let mut at = 0;
    for i in 0..n {
        at = put_kept(free, at, i as u16, 1 < states[i]);
    }
    at
}

// The store of a held wagon, 0 of a free one.
#[tactic(auto, unfolding(crate::specs::Pinned::held_byte))]
fn held_byte(states: &[u8], i: usize) -> u8
    requires { i < length states.now }
    ensures { result ≡ held_byte states.now i }
{
    if 1 < states[i] {
        return 0;
    }
    states[i]
}

// The choice of the held wagons alone.
#[tactic(auto, unfolding(laws::specs::Rows::map_first))]
fn held_choice(n: usize, states: &[u8]) -> [u8; MOST_WAGONS]
    requires { (n ≤ most_wagons) × (n ≤ length states.now) }
    ensures { result ≡ fill (held_byte states.now) n (replicate most_wagons 0) }
{
    let mut held = [0u8; MOST_WAGONS];
    for i in 0..n {
        held[i] = held_byte(states, i);
    }
    held
}

// What entry l adds to the linear cost of its row's wagon: its value where the wagon of its column is in 1.
fn entry_term(table: Entries, held: &[u8; MOST_WAGONS], l: usize) -> i64
    requires { InRange most_wagons (listed table) × (l < table.count) }
    ensures { let t = listed table.entry in result ≡ t.value l *ℤ choice_at held.now (t.column l) }
{
    let j = usize::from(table.cols[l]);
    chosen_once(table.values[l], held[j])
}

// What the held wagons add to the linear cost of each wagon, by one walk over the entries.
fn beside_sums(table: Entries, held: &[u8; MOST_WAGONS]) -> [i64; MOST_WAGONS]
    requires { InRange most_wagons (listed table) × (magnitude_of (listed table) ≤ most_magnitude) }
    ensures { result ≡ tabulate (λ i. sum table.entry.count (beside_term (listed table.entry) (choice_at held.now) i)) most_wagons }
{
    let mut sums = [0i64; MOST_WAGONS];
    for l in 0..table.count {
        let i = usize::from(table.rows[l]);
        sums[i] += entry_term(table, held, l);
    }
    sums
}

// The linear cost of wagon i beside the held ones.
fn beside_held(c: &[i64], sums: &[i64; MOST_WAGONS], i: usize) -> i64
    requires { (i < length c.now) × (i < most_wagons) × SFits w64 (elem_z c.now i +ℤ elem_z sums.now i) }
    ensures { result ≡ elem_z c.now i +ℤ elem_z sums.now i }
{
    c[i] + sums[i]
}

// The linear costs of the free wagons.
#[tactic(auto, unfolding(laws::specs::Lists::tabulate))]
fn put_costs(c: &[i64], sums: &[i64; MOST_WAGONS], free: &[u16], to_c: &mut [i64])
    requires { ((k : ℕ) → k < length free.now → BesideFits c.now sums.now (elem free.now k)) × (length free.now ≤ length to_c.old) }
    ensures { to_c.new ≡ over (tabulate
        (λ k. elem_z c.now (elem free.now k) +ℤ elem_z sums.now (elem free.now k)) (length free.now))
        to_c.old }
{
    for k in 0..free.len() {
        let i = usize::from(free[k]);
        to_c[k] = beside_held(c, sums, i);
    }
}

// What wagon i adds to the constant where it is held in 1, in eighths: its own cost, and half of its sum, since what two wagons cost is in the sums of both.
fn held_term(c: &[i64], sums: &[i64; MOST_WAGONS], held: &[u8; MOST_WAGONS], i: usize) -> i64
    requires { (i < length c.now) × (i < most_wagons) × (nat_abs (elem_z sums.now i) + 2 * nat_abs (elem_z c.now i) ≤ most_magnitude) }
    ensures { result ≡ held_term (elem_z c.now) (elem_z sums.now) (choice_at held.now) i }
{
    chosen_once(4 * sums[i] + 8 * c[i], held[i])
}

// The constant, by the sums of the held wagons.
fn held_cost(n: usize, c: &[i64], sums: &[i64; MOST_WAGONS], held: &[u8; MOST_WAGONS]) -> i64
    requires { (n ≤ length c.now) × (n ≤ most_wagons)
        × ((i : ℕ) → i < n → nat_abs (elem_z sums.now i) + 2 * nat_abs (elem_z c.now i) ≤ most_magnitude) }
    ensures { result ≡ sum n (held_term (elem_z c.now) (elem_z sums.now) (choice_at held.now)) }
{
    (0..n).map(|i| held_term(c, sums, held, i)).sum()
}

// The costs of the free wagons, which are given.
fn reduce_to(
    hall: JudgedHall,
    states: &[u8],
    free: &[u16],
    to_rows: &mut [u16],
    to_cols: &mut [u16],
    to_values: &mut [i64],
    to_c: &mut [i64],
) -> Shrunk
    requires { (hall.n ≤ length states.now) × (free.now ≡ free_of hall.n states.now)
        × Room 0 hall.table.count to_rows.old to_cols.old to_values.old × (hall.n ≤ length to_c.old) }
    ensures { let h = hall.entry in (result.free ≡ length (free_of h.n states.now))
        × Shrinks h.n (listed h.table) (elem_z h.c.now) states.now
        to_rows.old to_cols.old to_values.old to_c.old
        to_rows.new to_cols.new to_values.new to_c.new result.count result.constant }
{
    let n = hall.n;
    let table = hall.table;
    let held = held_choice(n, states);
    // H is its own mirror image, and is read by columns: so the entries that follow each other ask for the store of one wagon.
    let turned = Entries {
        count: table.count,
        rows: table.cols,
        cols: table.rows,
        values: table.values,
    };
    let sums = beside_sums(turned, &held);
    let constant = held_cost(n, hall.c, &sums, &held);
    put_costs(hall.c, &sums, free, to_c);
    let places = free_places(n, states);
    let placed = Placed {
        table,
        places: &places,
    };
    let count = free_entries(placed, to_rows, to_cols, to_values);
    Shrunk {
        free: free.len(),
        count,
        constant,
    }
}

// (H, c) reduced by the held wagons.
pub fn reduce(
    hall: JudgedHall,
    states: &[u8],
    free: &mut [u16],
    to_rows: &mut [u16],
    to_cols: &mut [u16],
    to_values: &mut [i64],
    to_c: &mut [i64],
) -> Shrunk
    requires { (hall.n ≤ length states.now) × (hall.n ≤ length free.old)
        × Room 0 hall.table.count to_rows.old to_cols.old to_values.old × (hall.n ≤ length to_c.old) }
    ensures { let h = hall.entry in (free.new ≡ over (free_of h.n states.now) free.old) × (result.free ≡ length (free_of h.n states.now))
        × Shrinks h.n (listed h.table) (elem_z h.c.now) states.now
        to_rows.old to_cols.old to_values.old to_c.old
        to_rows.new to_cols.new to_values.new to_c.new result.count result.constant }
{
    let wagons = free_wagons(hall.n, states, free);
    reduce_to(
        hall,
        states,
        &free[..wagons],
        to_rows,
        to_cols,
        to_values,
        to_c,
    )
}
