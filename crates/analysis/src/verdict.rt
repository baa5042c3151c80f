// The verdict: whether each job's bound is at or before its deadline.
ghost use Rattle.std.specs.Prelude.{◌≡◌, ℕ, nat_le};
ghost use Rattle.std.specs.List.{list_all, zip};
ghost use Rattle.jobs.specs.declared.job.Job.{Job};
ghost use Rattle.analysis.specs.Answers.{verdict_of};

use crate::bounds::bounds_alone;
use jobs::job::Job;
use jobs::refusal::Refusal;
use jobs::set::JobSet;

// Whether each job has its bound at or before its deadline.
fn meets_all(jobs: &[Job], bounds: &[u64]) -> bool
    ensures { result ≡ list_all (λ (pair : Job × ℕ). nat_le pair.1 pair.0.deadline) (zip jobs.now bounds.now) }
{
    jobs.iter()
        .zip(bounds.iter())
        .all(|(job, bound)| *bound <= job.deadline)
}

// The verdict on a set by 1 ERT, 2 CJA or 3 ITR: its own refusals first, then 10 for another algorithm.
pub fn verdict(set: JobSet, algorithm: u64) -> Result<bool, Refusal>
    ensures { result ≡ verdict_of set algorithm }
{
    let bounds = bounds_alone(set, algorithm)?;
    let count = set.count;
    let jobs = &set.jobs[..count];
    Ok(meets_all(jobs, &bounds))
}
