// The search from signs whose table has been checked.
// Arrays have a fixed size: no heap, a rule of the project (limits/src/lib.rt).
// `objectives, signs` stay apart for the reason at the head of level.rt in local_search, `current, current_row, changes` for that at the head of levels.rt.
ghost use Rattle.std.specs.Prelude.{◌≡◌, ◌*◌, ◌≤◌, length};
ghost use Rattle.limits.specs.Limits.{most_signs, most_words};
ghost use Rattle.sign_words.specs.Signs.{Binary};
ghost use Rattle.sign_words.specs.Packed.{unpacked, Tidy};
ghost use Rattle.local_search.specs.Children.{parent_of};
ghost use Rattle.sign_search.specs.Search.{objective_in};
ghost use Rattle.sign_search.specs.Within.{bounds};
ghost use Rattle.sign_search.specs.Clauses.{Sound, StartRow, SearchFits, LevelRoom, Searchable, SearchLeaves, Found-by, Found-within, searched_in};
ghost use Rattle.tables.specs.Entries.{listed};

use crate::levels::{advance, append_row};
use crate::within::{Leeway, Reach};
use limits::{MOST_SIGNS, MOST_WORDS, SEARCH_WORKSPACE};
use local_search::least::keep_least;
use sign_words::pack::{pack, unpack};
use sign_words::size::sign_words;
use sign_words::words::copy;
use tables::entries::Entries;
use tables::objective::obj_rounded;

// What the search found: its objective and the rounds it took; the signs are in the slice lent for them.
#[derive(Drop)]
pub struct Searched {
    pub least: i64,
    pub rounds: u64,
}

// A search at least one choice wide: on which table, how wide, of which objective the start is, and how far it may go. What is asked of it speaks of
// the start's signs too (`Searchable`): these are written, and a struct that held them would have no fact of their number to keep.
#[derive(Clone, Copy)]
pub struct Search<'a> {
    pub table: Entries<'a>,
    pub width: usize,
    pub objective: i64,
    pub leeway: Leeway,
}

// The search from the signs in `current`, level by level. `kept`, `current_row` and `origin` have them in words; `kept` takes the answer.
pub fn search_levels(
    search: Search,
    kept: &mut [u64],
    current: &mut [u8],
    current_row: &mut [u64],
    changes: &mut [i64],
    objectives: &mut [i64],
    signs: &mut [u64],
    next_objectives: &mut [i64],
    next_signs: &mut [u64],
    origin: &[u64],
) -> Searched
    requires { SearchFits (length kept.old) (length current.old) search.width (length changes.old) (length objectives.old) (length signs.old)
        (length next_objectives.old) (length next_signs.old) × Sound (length current.old) (listed search.table)
        × (search.objective ≡ objective_in (listed search.table) current.old) × StartRow current.old kept.old current_row.old × (search.leeway.flips ≤ length current.old) × (origin.now ≡ kept.old) }
    ensures kept_after { let s = search.entry in SearchLeaves (searched_in (listed s.table) (bounds s.leeway.flips s.leeway.most current.old) s.width
        (parent_of s.objective current.old)) result.least result.rounds (unpacked (length current.old) kept.new) }
    ensures tidy { Tidy (length current.old) kept.new }
{
    let words = kept.len();
    let reach = Reach {
        origin,
        leeway: search.leeway,
    };
    let mut least = search.objective;
    let mut rounds: u64 = 0;
    let mut count = append_row(
        search.table,
        search.objective,
        current,
        kept,
        changes,
        objectives,
        signs,
        search.leeway,
    );
    // A `while`: it goes on as long as a level has choices, so that nothing is counted but the rounds.
    while 0 < count {
        least = keep_least(objectives, signs, count, least, kept);
        count = advance(
            search.table,
            words,
            current,
            current_row,
            changes,
            objectives,
            signs,
            count,
            next_objectives,
            next_signs,
            search.width,
            reach,
        );
        rounds += 1;
    }
    Searched { least, rounds }
}

// The same with the room that the search takes besides the level.
fn search_packed(
    search: Search,
    kept: &mut [u64],
    current: &mut [u8],
    current_row: &mut [u64],
    level: &mut [u64],
) -> Searched
    requires searchable { Searchable (listed search.table) search.width search.objective search.leeway.flips current.old (length level.old) }
    requires start_row { StartRow current.old kept.old current_row.old × (length kept.old ≤ most_words) × (length current.old ≤ 64 * length kept.old) }
    ensures kept_after { let s = search.entry in SearchLeaves (searched_in (listed s.table) (bounds s.leeway.flips s.leeway.most current.old) s.width
        (parent_of s.objective current.old)) result.least result.rounds (unpacked (length current.old) kept.new) }
    ensures tidy { Tidy (length current.old) kept.new }
{
    let mut changes: [i64; MOST_SIGNS] = [0; MOST_SIGNS];
    let mut objectives: [i64; MOST_SIGNS] = [0; MOST_SIGNS];
    let mut next_objectives: [i64; MOST_SIGNS] = [0; MOST_SIGNS];
    let mut next_level: [u64; SEARCH_WORKSPACE] = [0; SEARCH_WORKSPACE];
    let mut origin: [u64; MOST_WORDS] = [0; MOST_WORDS];
    let words = kept.len();
    copy(&mut origin[0..words], kept);
    let start = &origin[0..words];
    search_levels(
        search,
        kept,
        current,
        current_row,
        &mut changes,
        &mut objectives,
        level,
        &mut next_objectives,
        &mut next_level,
        start,
    )
}

// The same from the signs in `current`, which takes the answer: packed into `kept` at the start, unpacked at the end.
#[tactic(auto, using(sign_words::proofs::PackedLaws::unpacked_packed))]
fn search_words(
    search: Search,
    kept: &mut [u64],
    current: &mut [u8],
    current_row: &mut [u64],
    level: &mut [u64],
) -> Searched
    requires searchable { Searchable (listed search.table) search.width search.objective search.leeway.flips current.old (length level.old) × Binary current.old }
    requires words_held { (length kept.old ≤ most_words) × (length current.old ≤ 64 * length kept.old) × (length current_row.old ≡ length kept.old) }
    ensures { let s = search.entry in SearchLeaves (searched_in (listed s.table) (bounds s.leeway.flips s.leeway.most current.old) s.width
        (parent_of s.objective current.old)) result.least result.rounds current.new }
{
    pack(current, kept);
    copy(current_row, kept);
    let found = search_packed(search, kept, current, current_row, level);
    unpack(kept, current);
    found
}

// The same in as many words as a choice of so many signs takes.
#[tactic(auto, using(sign_words::proofs::Sizes::few_words, sign_words::proofs::Sizes::enough_words))]
fn search_room(search: Search, current: &mut [u8], level: &mut [u64]) -> Searched
    requires { Searchable (listed search.table) search.width search.objective search.leeway.flips current.old (length level.old) × Binary current.old }
    ensures { let s = search.entry in SearchLeaves (searched_in (listed s.table) (bounds s.leeway.flips s.leeway.most current.old) s.width
        (parent_of s.objective current.old)) result.least result.rounds current.new }
{
    let mut kept: [u64; MOST_WORDS] = [0; MOST_WORDS];
    let mut current_row: [u64; MOST_WORDS] = [0; MOST_WORDS];
    let words = sign_words(current.len());
    search_words(
        search,
        &mut kept[0..words],
        current,
        &mut current_row[0..words],
        level,
    )
}

// The search from the signs in `kept`, each 0 or 1, which takes the answer; with width 0 the start stands. It goes as far as `leeway` says. The rows of
// a level go to `level`.
#[tactic(auto, unfolding(crate::specs::Search::objective_in), using(crate::proofs::Searches::found_none))]
pub fn search_within(
    table: Entries,
    width: usize,
    kept: &mut [u8],
    level: &mut [u64],
    leeway: Leeway,
) -> Searched
    requires { LevelRoom most_signs most_words (length kept.old) width (length level.old) × Binary kept.old × Sound (length kept.old) (listed table) × (leeway.flips ≤ length kept.old) }
    ensures { Found-within (listed table.entry) (bounds leeway.flips leeway.most kept.old) width
        kept.old result.least result.rounds kept.new }
{
    let start = obj_rounded(table, kept);
    if width == 0 {
        return Searched {
            least: start,
            rounds: 0,
        };
    }
    let search = Search {
        table,
        width,
        objective: start,
        leeway,
    };
    search_room(search, kept, level)
}

// 01's local search from the signs in `kept`, each 0 or 1, which takes the answer: every sign may flip, at any distance. With width 0 the start
// stands. The rows of a level go to `level`.
#[tactic(auto, using(crate::proofs::Searches::found_base))]
pub fn search_signs(table: Entries, width: usize, kept: &mut [u8], level: &mut [u64]) -> Searched
    requires { LevelRoom most_signs most_words (length kept.old) width (length level.old) × Binary kept.old × Sound (length kept.old) (listed table) }
    ensures { Found-by (listed table.entry) width kept.old result.least result.rounds kept.new }
{
    let m = kept.len();
    let leeway = Leeway { flips: m, most: m };
    search_within(table, width, kept, level, leeway)
}
