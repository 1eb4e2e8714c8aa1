// Root, eighths, bits and default rank, which refuse nothing; the version of the calls, and the sizes.
ghost use Rattle.std.specs.Prelude.{◌≡◌};
ghost use Rattle.ieee.specs.Floats.{double_of, bits_of, eighth_of};
ghost use Rattle.ieee.specs.Sqrt.{sqrt_of};
ghost use Rattle.tables.specs.Rank.{default_rank};
ghost use Rattle.exports.specs.Sizes.{calls_version, size_of};

use crate::turns::HALL_WORDS;
use crate::words::{RESULT_WORDS, RUN_WORDS, SETTING_WORDS};
use limits::{
    LEAST_ANSWER, LEAST_TURN, MOST_BLOCKS, MOST_BYTES, MOST_DRAWS, MOST_ENTRIES, MOST_RANK,
    MOST_RUNS, MOST_SIGN_ENTRIES, MOST_SIGNS, MOST_SIZE, MOST_START, MOST_TURN, MOST_WAGONS,
    MOST_WIDTH, MOST_WORDS, RECORD_WORKSPACE, SEARCH_WORKSPACE,
};

#[unsafe(no_mangle)]
pub extern "C" fn wagonplan_raw_sqrt(x: f64) -> f64
    ensures { result ≡ sqrt_of x }
{
    ieee::sqrt(x)
}

// A whole number of eighths as a double.
#[unsafe(no_mangle)]
pub extern "C" fn wagonplan_raw_eighth(v: i64) -> f64
    ensures { result ≡ eighth_of v }
{
    ieee::eighth(v)
}

#[unsafe(no_mangle)]
pub extern "C" fn wagonplan_raw_double_of(bits: u64) -> f64
    ensures { result ≡ double_of bits }
{
    ieee::bits::double_of(bits)
}

#[unsafe(no_mangle)]
pub extern "C" fn wagonplan_raw_bits_of(x: f64) -> u64
    ensures { result ≡ bits_of x }
{
    ieee::bits::bits_of(x)
}

#[unsafe(no_mangle)]
pub extern "C" fn wagonplan_raw_default_sdp_rank(m: u16) -> u16
    ensures { result ≡ default_rank m }
{
    tables::rank::default_sdp_rank(m)
}

// Moves with what the calls for C take or give.
#[unsafe(no_mangle)]
pub extern "C" fn wagonplan_raw_version() -> u32
    ensures { result ≡ calls_version }
{
    12
}

// The size that is asked for, 0 where there is none. u32 to usize by `as`: the library has no From for it.
#[unsafe(no_mangle)]
#[tactic(auto, unfolding(crate::specs::Sizes::size_of, sign_words::specs::Size::sign_words))]
pub extern "C" fn wagonplan_raw_size(which: u32) -> usize
    ensures { result ≡ size_of which }
{
    let sizes = [
        MOST_BYTES,
        MOST_WAGONS,
        MOST_ENTRIES,
        MOST_SIGNS,
        MOST_SIGN_ENTRIES,
        MOST_RANK,
        MOST_WIDTH,
        MOST_DRAWS,
        MOST_START,
        RECORD_WORKSPACE,
        LEAST_ANSWER,
        MOST_SIZE,
        RUN_WORDS,
        SETTING_WORDS,
        RESULT_WORDS,
        SEARCH_WORKSPACE,
        MOST_WORDS,
        MOST_BLOCKS,
        MOST_RUNS,
        LEAST_TURN as usize,
        MOST_TURN as usize,
        HALL_WORDS,
    ];
    sizes.get(which as usize).copied().unwrap_or(0)
}
