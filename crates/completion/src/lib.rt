// The bounds of a set of jobs, by ERT, CJA and ITR, and what they come from.
#![tactic(auto)]

pub mod answer;
mod block;
mod blocks;
mod carried;
pub mod cja;
mod columns;
mod delay;
pub mod ert;
mod first;
mod interference;
pub mod itr;
pub mod named;
mod pair;
mod predecessor;
mod round;
mod start;
mod sweep;
mod table;
mod taken;
mod target;
mod window;
