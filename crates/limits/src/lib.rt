// 01's limits, each named once; specs/Limits.antt has the same names. What follows from another limit is computed from it.
// There is no heap: whatever a call works on stands in arrays of the largest size that these allow, and of each the first places are used, as many as a
// count or a slice says.
#![tactic(auto)]

// (H, c)
pub const MOST_WAGONS: usize = 255;

pub const MOST_ENTRIES: usize = 4_096;

pub const MOST_MAGNITUDE: u64 = 1 << 40;

// A sign table: a sign more than wagons; an entry of H each, and for each wagon its linear cost twice and its diagonal, and the anchor's corner.
pub const MOST_SIGNS: usize = MOST_WAGONS + 1;

pub const MOST_SIGN_ENTRIES: usize = MOST_ENTRIES + 3 * MOST_WAGONS + 1;

pub const MOST_SIGN_MAGNITUDE: u64 = 4 * MOST_MAGNITUDE;

// A run, its search and its finish.
pub const MOST_RANK: usize = 32;

pub const MOST_WIDTH: usize = 128;

pub const MOST_DRAWS: usize = 1_000;

// A rule's last number, and a start's.
pub const LAST_RULE: usize = 4;

pub const LAST_START: usize = 2;

// As many numbers as any factor has; as any start takes: a sign and a row for each sign.
pub const MOST_FACTOR: usize = MOST_SIGNS * MOST_RANK;

pub const MOST_START: usize = MOST_SIGNS + MOST_FACTOR;

// A house of at most so many wagons is small: what jobs of versions 1 and 2 have, and whose choices take no more words than before the larger ones.
pub const SMALL_WAGONS: usize = 127;

pub const SMALL_SIGNS: usize = SMALL_WAGONS + 1;

// The words of a choice, 64 signs in each; of a small house's.
pub const MOST_WORDS: usize = (MOST_SIGNS + 63) / 64;

pub const SMALL_WORDS: usize = (SMALL_SIGNS + 63) / 64;

// The workspace of a search, and so of a finish, in words: a level, as many choices as there are signs or places.
pub const SEARCH_WORKSPACE: usize = MOST_SIGNS * MOST_WORDS;

// The workspace of the record call, in bytes: 01's, whatever a search takes.
pub const RECORD_WORKSPACE: usize = 16_384;

// A job record, and as many doubles as any job has in its draws.
pub const MOST_BYTES: usize = 65_536;

pub const MOST_DRAWN: usize = MOST_BYTES / 8;

// An answer slice of fewer bytes is too short: those before b, and a byte a wagon.
pub const LEAST_ANSWER: usize = 60 + MOST_WAGONS;

// The reduced pair's original size; its table has at most as many entries as a sign table.
pub const MOST_SIZE: usize = 1_024;

// 02's later requests: the blocks of one call, the wagons of a house that is walked in full, the runs that share a turn and the sweeps of one.
pub const MOST_BLOCKS: usize = 16;

pub const MOST_WALKED: usize = 16;

pub const MOST_RUNS: usize = 8;

pub const LEAST_TURN: u32 = 8;

pub const MOST_TURN: u32 = 10_000;
