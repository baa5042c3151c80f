// Two recordings of one run: whether each is legal, and where they begin to differ.
#![tactic(auto)]

pub mod compare;
mod course;
mod difference;
mod figures;
mod fitting;
mod legal;
mod priority;
mod waiting;
