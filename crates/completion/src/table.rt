// The table of an accepted set's jobs that the bounds are made from, within its limits, with the ends of its chains.
ghost use Rattle.std.specs.Prelude.{◌≡◌, ◌<◌};
ghost use Rattle.jobs.specs.{Limits.max_jobs, Jobs.jobs_of, Checks.check_of};
ghost use Rattle.theory.specs.Table.{table_of};
ghost use Rattle.theory.proofs.{Agreement.Agree, Columns.figure, Columns.lent, Columns.Fit, Endings.Ended, Unread.bare};

use crate::columns::{CHAIN, Columns, EARLIEST, END, LATEST, MOST, URGENCY, columns_of};
use jobs::set::JobSet;

// The figures of the jobs by their places, a column each. The bounds before a round stand beside it, since each round has others.
#[derive(Drop)]
pub(crate) struct Table {
    pub count: usize,
    pub columns: Columns,
    ghost fit: { Fit (lent count columns) },
    ghost ended: { Ended count columns },
}

impl Table {
    // The table of an accepted set.
    pub(crate) fn of(set: JobSet) -> Table
        requires { check_of (jobs_of set) ≡ Ok tt }
        ensures { Agree (lent result.count result.columns) (bare (table_of (jobs_of set))) }
    {
        Table {
            count: set.count,
            columns: columns_of(set),
        }
    }

    pub(crate) fn chain(&self, i: usize) -> u64
        requires { i < max_jobs }
        ensures { result ≡ figure self.now.columns 0 i }
    {
        self.columns[CHAIN][i]
    }

    pub(crate) fn urgency(&self, i: usize) -> u64
        requires { i < max_jobs }
        ensures { result ≡ figure self.now.columns 1 i }
    {
        self.columns[URGENCY][i]
    }

    pub(crate) fn most(&self, i: usize) -> u64
        requires { i < max_jobs }
        ensures { result ≡ figure self.now.columns 2 i }
    {
        self.columns[MOST][i]
    }

    // The effective earliest release.
    pub(crate) fn earliest(&self, i: usize) -> u64
        requires { i < max_jobs }
        ensures { result ≡ figure self.now.columns 3 i }
    {
        self.columns[EARLIEST][i]
    }

    // The effective latest release.
    pub(crate) fn latest(&self, i: usize) -> u64
        requires { i < max_jobs }
        ensures { result ≡ figure self.now.columns 4 i }
    {
        self.columns[LATEST][i]
    }

    // Where a chain has its first job, the place after its last one.
    pub(crate) fn end(&self, i: usize) -> usize
        requires { i < max_jobs }
        ensures { result ≡ figure self.now.columns 5 i }
    {
        self.columns[END][i] as usize
    }
}
