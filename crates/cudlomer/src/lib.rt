// The functions that C calls. Each answers a number from 0 on, or the number of the refusal negated.
#![tactic(auto)]

mod codes;
pub mod recordings;
pub mod runs;
pub mod sets;
pub mod tables;
