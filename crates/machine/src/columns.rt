// The figures of a set that the scan reads at every tick, as columns; effective releases are worked out once.
ghost use Rattle.std.specs.Prelude.{◌≡◌, ◌+◌, ◌<◌, ◌^◌};
ghost use Rattle.jobs.specs.Jobs.{jobs_of};
ghost use Rattle.jobs.proofs.Accepted.{Accepted};
ghost use Rattle.theory.specs.Table.{table_of};
ghost use Rattle.theory.proofs.{Columns.seen, Columns.Alike, Predecessors.not_before};

use jobs::job::Job;
use jobs::set::JobSet;

// A column for each of the figures named below. Places beyond the jobs hold 0.
// They stay arrays by number: the laws of theory that completion shares speak of columns by number, and a record for each job would read no plainer.
pub type Columns = [[u64; JobSet::MAX_JOBS]; COLUMNS];

pub const COLUMNS: usize = 3;

pub const CHAIN: usize = 0;

pub const URGENCY: usize = 1;

pub const RELEASE: usize = 2;

// The effective release of a job; `last` is the job before it in the table, and `before` that one's effective release.
#[tactic(auto, unfolding(theory::proofs::Predecessors::not_before))]
fn release_after(last: Job, before: u64, job: Job) -> u64
    requires { before + last.least < 2 ^ 64 }
    ensures { result ≡ not_before last.chain job.chain job.release (before + last.least) }
{
    if last.chain == job.chain {
        return job.release.max(before + last.least);
    }
    job.release
}

// The columns of an accepted set.
pub(crate) fn columns_of(set: JobSet) -> Columns
    requires { Accepted (jobs_of set) }
    ensures { Alike (seen result) (table_of (jobs_of set)) set.count }
{
    let mut columns = [[0u64; JobSet::MAX_JOBS]; COLUMNS];
    let count = set.count;
    let mut last = Job::none();
    let mut before: u64 = 0;
    for n in 0..count {
        let job = set.jobs[n];
        before = release_after(last, before, job);
        columns[CHAIN][n] = job.chain;
        columns[URGENCY][n] = Job::urgency(job);
        columns[RELEASE][n] = before;
        last = job;
    }
    columns
}
