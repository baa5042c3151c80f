// Jobs, sets of jobs, and the checks that decide whether a set is accepted.
#![tactic(auto)]

pub mod check;
mod display;
pub mod job;
pub mod join;
pub mod last;
pub mod most;
pub mod place;
pub mod record;
pub mod refusal;
pub mod set;
mod values;
