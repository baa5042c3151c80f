// A further chain joins a set as its highest-numbered one.
ghost use Rattle.std.specs.Prelude.{◌≡◌, [], ◌+◌, ◌≤◌};
ghost use Rattle.jobs.specs.{Limits.max_jobs, Jobs.jobs_of, Jobs.set_of, Checks.records_check, Joins.renumbered, Joins.join_of};

use crate::check::check_records;
use crate::job::Job;
use crate::last::last_of;
use crate::record::check_record;
use crate::refusal::Refusal;
use crate::set::JobSet;

// The same jobs, and no job in the places beyond them.
fn cleared(set: JobSet) -> JobSet
    requires { set.count ≤ max_jobs }
    ensures { result ≡ set_of (jobs_of set) }
{
    let mut copy = JobSet::empty();
    for n in 0..set.count {
        copy.jobs[n] = set.jobs[n];
        copy.count = n + 1;
    }
    copy
}

// A job under another chain and job number.
fn renumber(chain: u64, number: u64, job: Job) -> Job
    ensures { result ≡ renumbered chain number job }
{
    Job {
        chain,
        job: number,
        ..job
    }
}

// The new records behind those of the old set, which have passed.
fn append(old: JobSet, new: JobSet) -> Result<JobSet, Refusal>
    requires { records_check [] (jobs_of old) ≡ Ok tt }
    ensures { result ≡ join_of old new }
{
    let mut set = cleared(old);
    let mut last = last_of(old);
    let chain = last.chain + 1;
    for k in 0..new.count {
        let n = set.count;
        if JobSet::MAX_JOBS <= n {
            return Err(Refusal::TooManyRecords);
        }
        let job = renumber(chain, k as u64 + 1, new.jobs[k]);
        check_record(n, last, job)?;
        set.jobs[n] = job;
        set.count = n + 1;
        last = job;
    }
    if new.count == 0 {
        return Err(Refusal::NoRecord);
    }
    Ok(set)
}

// The joined set, by the checks of the joined records, the first bad one deciding, then 7 where the new chain is empty.
pub fn join(old: JobSet, new: JobSet) -> Result<JobSet, Refusal>
    ensures { result ≡ join_of old new }
{
    check_records(old)?;
    append(old, new)
}
