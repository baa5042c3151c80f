// Sets, states and figures as numbers in memory that the caller lends.
#![tactic(auto)]

pub mod delays;
pub mod number;
pub mod put;
pub mod set;
pub mod state;
