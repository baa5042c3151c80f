// The slack of each job: its deadline less its ITR bound.
ghost use Rattle.std.specs.Prelude.{◌≡◌, ◌≤◌, pos};
ghost use Rattle.laws.specs.Words.{padded};
ghost use Rattle.jobs.specs.{Limits.max_jobs, Limits.max_deadline, Jobs.jobs_of, Checks.check_of};
ghost use Rattle.theory.specs.Table.{table_of};
ghost use Rattle.theory.specs.Bounds.{bound_limit, itr as theory_itr, slack as theory_slack, slacks as theory_slacks};
ghost use Rattle.analysis.specs.Answers.{slacks_of};

use completion::itr::itr_alone;
use jobs::refusal::Refusal;
use jobs::set::JobSet;

// A deadline less a bound, exact on both sides of zero.
fn slack(deadline: u64, bound: u64) -> i64
    requires { (deadline ≤ max_deadline) × (bound ≤ bound_limit) }
    ensures { result ≡ theory_slack deadline bound }
{
    let due = deadline as i64;
    let end = bound as i64;
    due - end
}

// The slacks of an accepted set, by its ITR bounds.
pub(crate) fn slacks_by(set: JobSet, bounds: [u64; JobSet::MAX_JOBS]) -> [i64; JobSet::MAX_JOBS]
    requires set_value { check_of (jobs_of set) ≡ Ok tt }
    requires bounds_value { bounds ≡ padded max_jobs 0 (theory_itr (table_of (jobs_of set))).bounds }
    ensures { result ≡ padded max_jobs (pos 0) (theory_slacks (jobs_of set)) }
{
    let mut slacks = [0i64; JobSet::MAX_JOBS];
    let count = set.count;
    for i in 0..count {
        let job = set.jobs[i];
        slacks[i] = slack(job.deadline, bounds[i]);
    }
    slacks
}

// The slacks of all jobs: one is below zero where the bound is later than the deadline.
pub fn slacks(set: JobSet) -> Result<[i64; JobSet::MAX_JOBS], Refusal>
    ensures { result ≡ slacks_of set }
{
    let answer = itr_alone(set)?;
    Ok(slacks_by(set, answer.bounds))
}
