// The check of one record's values, refusals 6 and 12 to 14.
ghost use Rattle.std.specs.Prelude.{◌≡◌};
ghost use Rattle.jobs.specs.Checks.{in_limits, times_in_limits, values_check};

use crate::job::Job;
use crate::refusal::Refusal;
use crate::set::JobSet;

// Whether a job's chain number, release and deadline are within their limits.
fn in_limits(job: Job) -> bool
    ensures { result ≡ in_limits job }
{
    (job.chain <= JobSet::MAX_CHAINS)
        & (job.release <= Job::MAX_RELEASE)
        & (job.deadline <= Job::MAX_DEADLINE)
}

// Whether a job's least and most are each within the limits of a running time.
fn times_in_limits(job: Job) -> bool
    ensures { result ≡ times_in_limits job }
{
    (1 <= job.least) & (job.least <= Job::MAX_TIME) & (1 <= job.most) & (job.most <= Job::MAX_TIME)
}

// The check of a record's values: the first fault in the order of the refusals decides.
pub(crate) fn check_values(job: Job) -> Result<(), Refusal>
    ensures { result ≡ values_check job }
{
    let limits = in_limits(job);
    let priority = job.priority <= Job::MAX_PRIORITY;
    let times = times_in_limits(job);
    let range = job.least <= job.most;
    if !limits {
        return Err(Refusal::OutOfLimits);
    }
    if !priority {
        return Err(Refusal::PriorityOutOfLimits);
    }
    if !times {
        return Err(Refusal::LeastOrMostOutOfLimits);
    }
    if !range {
        return Err(Refusal::LeastAboveMost);
    }
    Ok(())
}
