// The check of running times, refusal 8, after those of the set.
ghost use Rattle.std.specs.Prelude.{◌≡◌, ◌<◌, ◌≤◌, ◌^◌, sum};
ghost use Rattle.jobs.specs.{Limits.max_jobs, Jobs.jobs_of};
ghost use Rattle.theory.specs.{Table.table_of, Runs.times_fit};
ghost use Rattle.machine.specs.Ticks.{machine_check};

use jobs::check::check;
use jobs::refusal::Refusal;
use jobs::set::JobSet;

// Whether the running times are one for each job, each in its range.
#[tactic(auto, using(crate::proofs::RunningTimes::fit_count, crate::proofs::RunningTimes::fit_below, crate::proofs::RunningTimes::fit_above, crate::proofs::RunningTimes::fit_here, crate::proofs::RunningTimes::fit_all, laws::proofs::Every::every_none, laws::proofs::Every::every_next))]
fn are_fitting(set: JobSet, times: &[u64]) -> bool
    requires { set.count ≤ max_jobs }
    ensures { result ≡ times_fit (table_of (jobs_of set)) times.now }
{
    let count = set.count;
    if times.len() != count {
        return false;
    }
    for n in 0..count {
        let time = times[n];
        if time < set.jobs[n].least {
            return false;
        }
        if set.jobs[n].most < time {
            return false;
        }
    }
    true
}

// The refusals of the set, then 8.
pub fn check_times(set: JobSet, times: &[u64]) -> Result<(), Refusal>
    ensures { result ≡ machine_check (jobs_of set) times.now }
{
    check(set)?;
    if !are_fitting(set, times) {
        return Err(Refusal::RunningTimes);
    }
    Ok(())
}

// All running times added up.
pub(crate) fn total(times: &[u64]) -> u64
    requires { sum times.now < 2 ^ 64 }
    ensures { result ≡ sum times.now }
{
    times.iter().sum()
}
