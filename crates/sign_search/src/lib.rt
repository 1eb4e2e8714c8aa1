// The local search on a sign table (`beam_search` of sdp_local_search.rs), in whole eighths.
// That the table is one of m signs (`Sound`, `SumsFit`) is asked of each function: m is the length of `current` or `signs`, which most of them write, so
// that a struct of table and fact would hold m besides, with a clause in each function that it is that length. No plainer.
#![tactic(auto)]

pub mod changes;
pub mod levels;
pub mod moves;
pub mod search;
pub mod within;
