// Every public call as C makes it (include/wagonplan.h): slices as a pointer and a length, the number as the result, values through what is lent for
// them. None has a `requires`.
#![tactic(auto)]

mod answers; // answers.rt: a value or a refusal, for C
pub mod blocks; // blocks.rt: blocks of wagons, then the house
pub mod choices; // choices.rt: the calls on choices in words
pub mod exchange; // exchange.rt: another rule for a run that is open
pub mod factors; // factors.rt: the calls on a sign table and a factor
mod lent; // lent.rt: a table, and an (H, c), as C lends them
pub mod moves; // moves.rt: at most k wagons moved
pub mod numbers; // numbers.rt: root, eighths, bits, default rank; version and sizes
pub mod pair; // pair.rt: the reduced pair
pub mod ranged; // ranged.rt: the ranged finish
pub mod record; // record.rt: the record call
pub mod run; // run.rt: open, sweep, finish
pub mod search; // search.rt: the search
pub mod small; // small.rt: small houses in full
pub mod table; // table.rt: the calls on tables
pub mod turns; // turns.rt: the turn that several runs share
mod words; // words.rt: run record, settings and result as words
