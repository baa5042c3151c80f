// The comparison of two recordings, as a text in a lent buffer.
#![tactic(auto)]

mod line;
pub mod text;
