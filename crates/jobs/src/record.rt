// The check of one record, refusals 4 to 6 and 12 to 14: how many there are, its place in the order, and its values.
ghost use Rattle.std.specs.Prelude.{◌≡◌, ◌+◌, eqb};
ghost use Rattle.jobs.specs.Checks.{is_next, record_check};

use crate::job::Job;
use crate::refusal::Refusal;
use crate::set::JobSet;
use crate::values::check_values;

// Whether a number is one more than another, with no sum that could wrap.
fn is_one_more(number: u64, before: u64) -> bool
    ensures { result ≡ eqb number (before + 1) }
{
    if number == 0 {
        return false;
    }
    number - 1 == before
}

// Whether a job comes next in order after n others, the last of which is last.
fn is_next(n: usize, last: Job, job: Job) -> bool
    ensures { result ≡ is_next n last job }
{
    if n == 0 {
        return (job.chain == 1) & (job.job == 1);
    }
    if job.chain == last.chain {
        return is_one_more(job.job, last.job);
    }
    is_one_more(job.chain, last.chain) & (job.job == 1)
}

// The check of a record that comes after n others, the last of which is last.
pub fn check_record(n: usize, last: Job, job: Job) -> Result<(), Refusal>
    ensures { result ≡ record_check n last job }
{
    if JobSet::MAX_JOBS <= n {
        return Err(Refusal::TooManyRecords);
    }
    if !is_next(n, last, job) {
        return Err(Refusal::OutOfOrder);
    }
    check_values(job)
}
