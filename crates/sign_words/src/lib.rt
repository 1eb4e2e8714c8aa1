// A choice of signs in words of 64 bits: bit i of the choice is set for the sign −, and unused bits are 0. These are the only functions that know
// of bits; how many words m signs take is said by `size`, and every other function takes the number from the slice.
#![tactic(auto)]

pub mod distance;
pub mod pack;
pub mod size;
pub mod words;
