// The job record: its number, its fields, and its tables read into slices.
#![tactic(auto)]

pub mod arrays;
pub mod job;
pub mod kinds;
pub mod number;
pub mod pins;
pub mod places;
pub mod reading;
pub mod settings;
pub mod versions;
