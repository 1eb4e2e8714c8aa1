// The calls of a run on (H, c): open, sweep, finish (000), and the exchange of its rule. None has a `requires`: what can't be used is refused by its number, and a refusal
// writes nothing.
#![tactic(auto)]

pub mod exchange; // exchange.rt: another rule for a run that is open
pub mod finish; // finish.rt: rounding, search and figures of a stopped run
pub mod open; // open.rt: the start's factor and the run record
pub mod sweep; // sweep.rt: up to k sweeps, by value and on the caller's record
mod work; // work.rt: the table of a call as the float work takes it
