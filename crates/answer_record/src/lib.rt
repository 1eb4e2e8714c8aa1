// The answer record, written over the front of a slice; what a reader finds in it is in specs/Answer.antt.
#![tactic(auto)]

pub mod answer;
pub mod put;
