// Up to eight runs that share a turn of sweeps (02, Note 11). Tables and factors are lent flat, run after run. The call has no `requires`: what
// can't be used is refused by its number, and a refusal moves no run. The count, the records and the sizes of the tables stay three parameters beside what is lent,
// as C hands them over: eight places of each, of which 26 judges the count first. In one value they would be taken out again by each of the four functions.
#![tactic(auto)]

mod member; // member.rt: one run's number and sweeps
pub mod numbers; // numbers.rt: the turn's number
mod shares; // shares.rt: who gets how many sweeps
pub mod turn; // turn.rt: the call

// A run's table: n wagons, and how many entries.
#[derive(Clone, Copy)]
pub struct HallSize {
    pub n: usize,
    pub count: usize,
}

// The entries and costs of the runs' tables, run after run; their lengths may be any.
#[derive(Clone, Copy)]
pub struct LentRuns<'a> {
    pub rows: &'a [u16],
    pub cols: &'a [u16],
    pub values: &'a [i64],
    pub c: &'a [i64],
}
