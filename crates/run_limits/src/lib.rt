// What jobs, runs and direct calls mean alike: the rank that a given one means, momentum, the numbers that a start takes, draws.
#![tactic(auto)]

ghost use Rattle.std.specs.Prelude.{◌≡◌, ◌≤◌};
ghost use Rattle.limits.specs.Limits.{most_signs, most_rank, most_start};
ghost use Rattle.run_limits.specs.Rank.{rank_meant};
ghost use Rattle.run_limits.specs.Momentum.{is_momentum};
ghost use Rattle.run_limits.specs.Start.{is_signs, draws_follow, start_of, start_length};
ghost use Rattle.run_limits.specs.Draws.{bad_draws};

use ieee::bits::bits_of;
use limits::MOST_DRAWS;
use tables::rank::default_sdp_rank;

// Draws as a rounding is lent them: how many, and their numbers, draw after draw; the slice's length may be any.
#[derive(Clone, Copy)]
pub struct Draws<'a> {
    pub count: usize,
    pub numbers: &'a [f64],
}

// Whether 19 refuses a count of draws.
#[tactic(auto, unfolding(crate::specs::Draws::bad_draws))]
pub fn bad_draws(count: usize) -> bool
    ensures { result ≡ bad_draws count }
{
    count == 0 || MOST_DRAWS < count
}

// The rank as given; 0 means the default rank of m signs. It is a number, no Option: 0 is the default in C's calls and in a job's bytes, and 17 and 31 judge it so.
// `m as u16` fits: where the default is asked for, m is at most MOST_SIGNS.
pub fn rank_meant(m: usize, rank: usize) -> usize
    requires { (rank ≡ 0 → m ≤ most_signs) × (rank ≤ most_rank) }
    ensures { (result ≡ rank_meant m rank) × (result ≤ most_rank) }
{
    if rank == 0 {
        return usize::from(default_sdp_rank(m as u16));
    }
    rank
}

// Whether a momentum is finite, from 0 to below 1: by its bits, below those of 1.0, or -0.0's. A comparison of doubles would follow the host's
// floating-point mode, in which a subnormal below 0 may count as 0.
pub fn is_momentum(beta: f64) -> bool
    ensures { result ≡ is_momentum beta }
{
    let bits = bits_of(beta);
    bits < 0x3ff0_0000_0000_0000 || bits == 0x8000_0000_0000_0000
}

// Whether draws follow a start's signs.
pub fn draws_follow(most: u32, rank: usize) -> bool
    ensures { result ≡ draws_follow most rank }
{
    0 < most && 1 < rank
}

// 01's kind of start that is signs. A kind is a number, and no enum, where it comes in: a caller may hand in any, and 31 of an open judges by it before
// 19 refuses what is none of them; what a kind means is `StartNumbers`.
const SIGNS: u8 = 2;

// What a start's numbers are: rows of the factor, a choice's signs alone, or signs and then draws.
#[derive(Clone, Copy)]
pub enum StartNumbers {
    Rows,
    Signs,
    SignsAndDraws,
}

// The start of a kind.
pub fn start_of(kind: u8, most: u32, rank: usize) -> StartNumbers
    ensures { result ≡ start_of (is_signs kind) (draws_follow most rank) }
{
    if kind != SIGNS {
        return StartNumbers::Rows;
    }
    if draws_follow(most, rank) {
        return StartNumbers::SignsAndDraws;
    }
    StartNumbers::Signs
}

// How many numbers a start takes.
pub fn start_length(kind: u8, m: usize, rank: usize, most: u32) -> usize
    requires { (m ≤ most_signs) × (rank ≤ most_rank) }
    ensures { (result ≡ start_length kind m rank most) × (result ≤ most_start) }
{
    match start_of(kind, most, rank) {
        StartNumbers::Rows => m * rank,
        StartNumbers::Signs => m,
        StartNumbers::SignsAndDraws => m + m * rank,
    }
}
