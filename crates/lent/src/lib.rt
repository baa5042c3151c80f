// The machine over memory that its caller lends: one tick applied to a state, and the scan over job records; each also by value, for a caller that lends no struct.
#![tactic(auto)]

pub mod scan;
pub mod tick;
