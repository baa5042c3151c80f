// What the test of a row reads of each job: from when it is ready, how urgent it is, and up to when it is ready.
ghost use Rattle.std.specs.Prelude.{◌≡◌, ◌≤◌};
ghost use Rattle.jobs.specs.{Limits.max_jobs, Jobs.jobs_of};
ghost use Rattle.legality.proofs.Judging.{waiting_in};

use crate::course::DONE;
use crate::figures::{COLUMNS, Figures, figure};
use crate::fitting::ready_after;
use jobs::job::Job;
use jobs::set::JobSet;

pub const READY: usize = 0;

pub const URGENCY: usize = 1;

// The column DONE is that of the course; places beyond the jobs hold 0.
pub(crate) fn waiting_of(set: JobSet, course: &Figures) -> Figures
    requires { set.count ≤ max_jobs }
    ensures { result ≡ waiting_in (jobs_of set) course.now }
{
    let mut waiting = [[0u64; JobSet::MAX_JOBS]; COLUMNS];
    let count = set.count;
    let mut chain: u64 = 0;
    let mut done: u64 = 0;
    for n in 0..count {
        let job = set.jobs[n];
        waiting[READY][n] = ready_after(chain, done, job);
        done = figure(course, DONE, n);
        waiting[URGENCY][n] = Job::urgency(job);
        waiting[DONE][n] = done;
        chain = job.chain;
    }
    waiting
}
