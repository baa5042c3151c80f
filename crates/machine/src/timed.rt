// The jobs of a run, as the scan reads them at every tick.
ghost use Rattle.std.specs.Prelude.{◌≡◌, ◌<◌, ◌≤◌, length};
ghost use Rattle.jobs.specs.Limits.{max_jobs};
ghost use Rattle.theory.proofs.{Columns.seen_count, Columns.figure as theory_figure};

use crate::columns::Columns;

// The columns of a set, lent, and the running time of each of its jobs.
#[derive(Clone, Copy)]
pub(crate) struct TimedJobs<'a> {
    pub columns: &'a Columns,
    pub times: &'a [u64],
    pub ghost few: { length times.now ≤ max_jobs },
}

impl<'a> TimedJobs<'a> {
    // The figure of column k of a job.
    pub(crate) fn figure(self, k: usize, at: usize) -> u64
        requires { (k < seen_count) × (at < length self.times.now) }
        ensures { result ≡ theory_figure self.entry.columns.now k at }
    {
        self.columns[k][at]
    }
}
