// The place of a job in a set, by its numbers.
ghost use Rattle.std.specs.Prelude.{◌≡◌, take, position};
ghost use Rattle.jobs.specs.{Limits.max_jobs, Jobs.jobs_of, Jobs.is_job, Jobs.place_in};

use crate::job::Job;
use crate::set::JobSet;

// Whether a job has these numbers.
fn is_job(job: Job, chain: u64, number: u64) -> bool
    ensures { result ≡ is_job job chain number }
{
    (job.chain == chain) & (job.job == number)
}

// The place of the first of some jobs with these numbers.
fn first_place(jobs: &[Job], chain: u64, number: u64) -> Option<usize>
    ensures { result ≡ position (λ job. is_job job chain number) jobs.now }
{
    jobs.iter().position(|job| is_job(*job, chain, number))
}

// The place of the first job with these numbers, and the number of jobs where there is none: the promise, by place_in, says that number, so that it is no Option.
pub fn place_of(set: JobSet, chain: u64, number: u64) -> usize
    ensures { result ≡ place_in (take max_jobs (jobs_of set)) chain number }
{
    let count = set.count.min(JobSet::MAX_JOBS);
    first_place(&set.jobs[..count], chain, number).unwrap_or(count)
}
