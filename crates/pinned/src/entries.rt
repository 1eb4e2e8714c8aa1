// The entries among the free wagons: those of a free row and a free column, under the places of these wagons among the free ones. H's entries rise and so do
// the free wagons, so that one walk over the entries leaves them in order.
// Rows, columns and values of what is written stay three slices: a struct of the three `&mut`s adds three clauses on ghost names to each function, as was tried in
// reduced. `n` stays beside `states`, for the reason in reduce.rt.
// Arrays have a fixed size: no heap, a rule of the project (limits/src/lib.rt).
ghost use Rattle.std.specs.Prelude.{◌≡◌, cond, ◌<◌, ◌≤◌, length, replicate, ltb};
ghost use Rattle.laws.specs.Lists.{elem, fill, next_if};
ghost use Rattle.tables.specs.Table.{InRange};
ghost use Rattle.tables.specs.Stored.{Room};
ghost use Rattle.limits.specs.Limits.{most_wagons};
ghost use Rattle.pinned.specs.Pinned.{is_free, place_of, free_entry, LastFree, Put, Renumbered};
ghost use Rattle.tables.specs.Entries.{listed};

use limits::MOST_WAGONS;
use tables::entries::Entries;

// The place of a wagon that is held: the limit of 01, which a u16 holds. No `Option`: each place goes into a slice of plain indices, and an entry's column is written before it is tested.
const HELD: u16 = MOST_WAGONS as u16;

// The entries of H, and the place of each wagon.
#[derive(Clone, Copy)]
pub struct Placed<'a> {
    pub table: Entries<'a>,
    pub places: &'a [u16; MOST_WAGONS],
    ghost in_range: { InRange most_wagons (listed table) },
}

// The place of wagon i, before which stand so many free ones. Narrowed by `as`: `requires` keeps it below 65,536, and `try_from` would have a failure to answer.
fn place_of(states: &[u8], i: usize, at: usize) -> u16
    requires { (i < length states.now) × (at < 65536) }
    ensures { result ≡ cond (is_free states.now i) at most_wagons }
{
    if 1 < states[i] {
        return at as u16;
    }
    HELD
}

// One more where the place is that of a free wagon.
fn after(at: usize, place: u16) -> usize
    requires { at < 65536 }
    ensures { result ≡ next_if (ltb place most_wagons) at }
{
    at + usize::from(place < HELD)
}

// The place of each wagon.
#[tactic(auto, unfolding(crate::specs::Pinned::free_of, laws::specs::Lists::kept, laws::specs::Rows::map_first))]
pub fn free_places(n: usize, states: &[u8]) -> [u16; MOST_WAGONS]
    requires { (n ≤ most_wagons) × (n ≤ length states.now) }
    ensures { result ≡ fill (place_of states.now) n (replicate most_wagons most_wagons) }
{
    let mut places = [HELD; MOST_WAGONS];
    let mut at = 0;
    for i in 0..n {
        let place = place_of(states, i, at);
        places[i] = place;
        at = after(at, place);
    }
    places
}

// Whether row and column of entry l are free.
#[tactic(auto, unfolding(crate::specs::Pinned::free_entry))]
fn is_free_entry(from: Placed, l: usize) -> bool
    requires { l < from.table.count }
    ensures { let t = listed from.entry.table in result ≡ free_entry from.entry.places.now t.row t.column l }
{
    let row = usize::from(from.table.rows[l]);
    let column = usize::from(from.table.cols[l]);
    if HELD <= from.places[row] {
        return false;
    }
    from.places[column] < HELD
}

// The number of entries up to the last free one. A `for`: with `rposition`, or `rev` and `find`, over the range it was not proved that the entries behind the
// one found are held.
fn free_end(from: Placed) -> usize
    ensures { let t = listed from.entry.table in LastFree (free_entry from.entry.places.now t.row t.column) t.count result }
{
    for l in (0..from.table.count).rev() {
        if is_free_entry(from, l) {
            return l + 1;
        }
    }
    0
}

// Entry l at place `at`, if it is free; the next place. In a free row it is written first and then held against its column, so that the next one goes over
// it if it isn't free.
fn put_entry(
    from: Placed,
    l: usize,
    to_rows: &mut [u16],
    to_cols: &mut [u16],
    to_values: &mut [i64],
    at: usize,
) -> usize
    requires { (l < from.table.count) × (at < 65536) × Room at 1 to_rows.old to_cols.old to_values.old }
    ensures { let t = listed from.entry.table in Put (free_entry from.entry.places.now t.row t.column l) at (elem from.entry.places.now (t.row l)) to_rows.old to_rows.new
        × Put (free_entry from.entry.places.now t.row t.column l) at (elem from.entry.places.now (t.column l)) to_cols.old to_cols.new
        × Put (free_entry from.entry.places.now t.row t.column l) at (t.value l) to_values.old to_values.new
        × (result ≡ next_if (free_entry from.entry.places.now t.row t.column l) at) }
{
    let row = usize::from(from.table.rows[l]);
    let column = usize::from(from.table.cols[l]);
    if HELD <= from.places[row] {
        return at;
    }
    to_rows[at] = from.places[row];
    to_cols[at] = from.places[column];
    to_values[at] = from.table.values[l];
    after(at, from.places[column])
}

// The free entries; how many they are. The walk ends with the last of them, so that nothing is written behind.
pub fn free_entries(
    from: Placed,
    to_rows: &mut [u16],
    to_cols: &mut [u16],
    to_values: &mut [i64],
) -> usize
    requires { (from.table.count < 65536) × Room 0 from.table.count to_rows.old to_cols.old to_values.old }
    ensures { Renumbered from.entry.places.now (listed from.entry.table)
        to_rows.old to_cols.old to_values.old to_rows.new to_cols.new to_values.new result }
{
    let end = free_end(from);
    let mut at = 0;
    for l in 0..end {
        at = put_entry(from, l, to_rows, to_cols, to_values, at);
    }
    at
}
