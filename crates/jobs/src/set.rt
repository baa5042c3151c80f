// A set of jobs, by value; the part has no heap, so that its places are an array with a count beside it. Places from count on hold no job, and a set that
// a caller hands may count more than there are places, which the checks refuse.
ghost use Rattle.std.specs.Prelude.{◌≡◌, []};
ghost use Rattle.jobs.specs.Jobs.{set_of};

use crate::job::Job;

#[derive(Clone, Copy)]
pub struct JobSet {
    pub jobs: [Job; JobSet::MAX_JOBS],
    pub count: usize,
}

impl JobSet {
    pub const MAX_JOBS: usize = 64;

    pub const MAX_CHAINS: u64 = 16;

    pub fn empty() -> JobSet
        ensures { result ≡ set_of [] }
    {
        let none = Job::none();
        JobSet {
            jobs: [none; JobSet::MAX_JOBS],
            count: 0,
        }
    }
}
