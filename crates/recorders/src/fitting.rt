// What is asked of the jobs of a recording.
ghost use Rattle.std.specs.Prelude.{◌≡◌, ◌<◌, ◌≤◌};
ghost use Rattle.laws.specs.Words.{every_below};
ghost use Rattle.jobs.specs.{Limits.max_jobs, Jobs.jobs_of};
ghost use Rattle.theory.proofs.Predecessors.{not_before};
ghost use Rattle.legality.proofs.Judging.{job_fits_in, fits_in};

use crate::course::{BEGIN, DONE, TOTAL};
use crate::figures::{Figures, figure};
use jobs::job::Job;
use jobs::set::JobSet;

// The time from which a job is ready; the job before it in the table is of `chain` and ends at `done`.
pub(crate) fn ready_after(chain: u64, done: u64, job: Job) -> u64
    ensures { result ≡ not_before chain job.chain job.release done }
{
    if chain == job.chain {
        if job.release < done {
            return done;
        }
    }
    job.release
}

// Whether the job at place n fits, which is ready from `ready` on.
fn job_fits(job: Job, ready: u64, n: usize, course: &Figures) -> bool
    requires { n < max_jobs }
    ensures { result ≡ job_fits_in course.now ready job n }
{
    let total = figure(course, TOTAL, n);
    let begin = figure(course, BEGIN, n);
    let enough = job.least <= total;
    let limited = total <= job.most;
    let waited = ready <= begin;
    enough & limited & waited
}

// Given releases do: where every job before fits, the effective release adds nothing to its predecessor's end.
pub(crate) fn jobs_fit(set: JobSet, course: &Figures) -> bool
    requires { set.count ≤ max_jobs }
    ensures { result ≡ every_below set.count (fits_in (jobs_of set) course.now) }
{
    let count = set.count;
    let mut chain: u64 = 0;
    let mut done: u64 = 0;
    for n in 0..count {
        let job = set.jobs[n];
        let ready = ready_after(chain, done, job);
        let fits = job_fits(job, ready, n, course);
        if !fits {
            return false;
        }
        chain = job.chain;
        done = figure(course, DONE, n);
    }
    true
}
