// The local search of 01, "Rounding and search", over choices of signs: levels in lent buffers, and how children enter them.
#![tactic(auto)]

pub mod children;
pub mod least;
pub mod level;
pub mod rows;
