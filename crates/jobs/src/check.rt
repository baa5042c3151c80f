// The check of a set handed by value, whatever it holds.
ghost use Rattle.std.specs.Prelude.{◌≡◌, []};
ghost use Rattle.jobs.specs.{Jobs.jobs_of, Checks.records_check, Checks.check_of};

use crate::job::Job;
use crate::record::check_record;
use crate::refusal::Refusal;
use crate::set::JobSet;

// The check of each record in turn, the first bad one deciding.
pub(crate) fn check_records(set: JobSet) -> Result<(), Refusal>
    ensures { result ≡ records_check [] (jobs_of set) }
{
    let mut last = Job::none();
    for n in 0..set.count {
        if JobSet::MAX_JOBS <= n {
            return Err(Refusal::TooManyRecords);
        }
        let job = set.jobs[n];
        check_record(n, last, job)?;
        last = job;
    }
    Ok(())
}

// The check of a set: the same, then 7.
pub fn check(set: JobSet) -> Result<(), Refusal>
    ensures { result ≡ check_of (jobs_of set) }
{
    check_records(set)?;
    if set.count == 0 {
        return Err(Refusal::NoRecord);
    }
    Ok(())
}
