// The texts that the programs print, written into a lent buffer.
#![tactic(auto)]

pub mod bounds;
mod columns;
mod entries;
pub mod listing;
pub mod room;
mod row;
mod rows;
pub mod trace;
