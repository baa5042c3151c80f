// What follows from the bounds of an accepted set.
use jobs::refusal::Refusal;
use jobs::set::JobSet;

// The three bounds and the slack of each job, 0 in the places beyond, and the rounds of ITR. A slack is below zero where the bound is later than the deadline.
#[derive(Clone, Copy)]
pub struct Figures {
    pub ert: [u64; JobSet::MAX_JOBS],
    pub cja: [u64; JobSet::MAX_JOBS],
    pub itr: [u64; JobSet::MAX_JOBS],
    pub rounds: u64,
    pub slacks: [i64; JobSet::MAX_JOBS],
}

// The verdict, which is yes where each job's bound is at or before its deadline, and the joined set on yes, else the old set as it was.
// The set stands beside the verdict and not in it, since a refusal hands the old set back too.
#[derive(Clone, Copy)]
pub struct Admission {
    pub verdict: Result<bool, Refusal>,
    pub set: JobSet,
}
