// What follows from the bounds of a set of jobs: bounds by an algorithm, slack, verdict and admission.
#![tactic(auto)]

pub mod admission;
pub mod algorithm;
pub mod answer;
pub mod bounds;
pub mod figures;
pub mod slack;
pub mod verdict;
