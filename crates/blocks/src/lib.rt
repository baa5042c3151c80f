// The blocks that delay each job, as a text in a lent buffer.
#![tactic(auto)]

mod row;
mod rows;
pub mod text;
