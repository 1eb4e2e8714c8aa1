// The sign table of (H, c).
#![tactic(auto)]

mod absorb;
pub mod made;
pub mod sign_matrix;
