// The machine that runs the jobs of a set tick by tick, by the priority rule.
#![tactic(auto)]

mod check;
mod columns;
mod leg;
pub mod pick;
pub mod rank;
mod ready;
pub mod run;
pub mod state;
pub mod step;
mod timed;
pub mod times;
pub mod trace;
