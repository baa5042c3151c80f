// Decimal numbers as text, in ASCII: their digit count, their writers and the reader of a field.
#![tactic(auto)]

pub mod count;
pub mod field;
pub mod signed;
pub mod unsigned;
