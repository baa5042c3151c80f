// Recordings of a run: the text of one, and the rows that it holds.
#![tactic(auto)]

pub mod reading;
pub mod row;
