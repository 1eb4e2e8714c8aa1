// The reduced pair (000): the principal submatrix of a table over mapped indices, and a reduced solution lifted to the original size.
#![tactic(auto)]

pub mod at_indices; // at_indices.rt: values put at their indices
pub mod from_principal_submatrix;
pub mod indices;
pub mod lift_solution;
