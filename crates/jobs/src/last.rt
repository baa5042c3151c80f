// The last job of a set.
ghost use Rattle.std.specs.Prelude.{◌≡◌, take};
ghost use Rattle.laws.specs.Words.{last_of};
ghost use Rattle.jobs.specs.{Limits.max_jobs, Jobs.no_job, Jobs.jobs_of};

use crate::job::Job;
use crate::set::JobSet;

// No job where there is none.
pub fn last_of(set: JobSet) -> Job
    ensures { result ≡ last_of no_job (take max_jobs (jobs_of set)) }
{
    let count = set.count.min(JobSet::MAX_JOBS);
    if count == 0 {
        return Job::none();
    }
    set.jobs[count - 1]
}
