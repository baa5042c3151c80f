// The text of a job table, and the set of jobs that it holds.
#![tactic(auto)]

pub mod header;
pub mod line;
pub mod reading;
