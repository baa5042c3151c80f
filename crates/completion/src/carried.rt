// What the sweeps of a round carry from job to job.
ghost use Rattle.std.specs.Prelude.{◌≡◌, replicate};
ghost use Rattle.jobs.specs.Limits.{max_jobs};

use jobs::set::JobSet;

// At the first place of each chain how many of its jobs were released in time for the last job, and the interference on each pair of the job at hand.
#[derive(Drop)]
pub(crate) struct Carried {
    pub released: [usize; JobSet::MAX_JOBS],
    pub delay: [u64; JobSet::MAX_JOBS],
}

impl Carried {
    // Before the first sweep.
    pub(crate) fn new() -> Carried
        ensures { result ≡ record { released = replicate max_jobs 0; delay = replicate max_jobs 0 } }
    {
        Carried {
            released: [0usize; JobSet::MAX_JOBS],
            delay: [0u64; JobSet::MAX_JOBS],
        }
    }
}
