// The most times of a set.
ghost use Rattle.std.specs.Prelude.{◌≡◌, take};
ghost use Rattle.laws.specs.Words.{padded};
ghost use Rattle.jobs.specs.{Limits.max_jobs, Jobs.jobs_of, Jobs.most_times};

use crate::set::JobSet;

// The most time of each job, and 0 in the places beyond the jobs.
pub fn most_times(set: JobSet) -> [u64; JobSet::MAX_JOBS]
    ensures { result ≡ padded max_jobs 0 (take max_jobs (most_times (jobs_of set))) }
{
    let mut times = [0u64; JobSet::MAX_JOBS];
    let count = set.count.min(JobSet::MAX_JOBS);
    for n in 0..count {
        times[n] = set.jobs[n].most;
    }
    times
}
