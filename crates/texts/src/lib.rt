// Texts in a lent buffer: their pieces, what their writers answer, and the line of a refusal.
#![tactic(auto)]

pub mod bytes;
pub mod putter;
pub mod refused;
pub mod whole;
