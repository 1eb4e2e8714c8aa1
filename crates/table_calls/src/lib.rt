// The calls on tables given directly. None has a `requires`: what can't be used is refused by its number, and a refusal writes nothing.
#![tactic(auto)]

pub mod choices;
pub mod halls;
pub mod sign_tables;
