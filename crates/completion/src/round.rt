// One round: CJA for all jobs, where only jobs whose spans overlap count.
ghost use Rattle.std.specs.Prelude.{◌≡◌, ◌≤◌};
ghost use Rattle.laws.specs.Words.{padded};
ghost use Rattle.jobs.specs.Limits.{max_jobs};
ghost use Rattle.theory.specs.Bounds.{round as theory_round};
ghost use Rattle.theory.proofs.{Columns.lent, ChainWindow.bounds_in, Refilling.Spare, RisingBounds.Upwards, SweptPairs.Ready, SweptPairs.Rounded};

use crate::carried::Carried;
use crate::columns::first_of;
use crate::pair::{largest_scanned, largest_swept};
use crate::start::start;
use crate::table::Table;
use jobs::set::JobSet;

// With so many jobs for each chain a sweep is no slower than a scan for each pair, whatever their priorities.
const SWEPT_FROM: u64 = 5;

// By a scan of all jobs for each pair.
fn scan_round(table: &Table, bound: &[u64; JobSet::MAX_JOBS], next: &mut [u64; JobSet::MAX_JOBS])
    requires { Spare table.now.count next.old }
    ensures { next.new ≡ padded max_jobs 0 (theory_round (lent table.now.count table.now.columns) bound.now) }
{
    for j in 0..table.count {
        next[j] = largest_scanned(table, bound, j);
    }
}

// By a sweep of all chains for each job; what the sweeps carry is ready again after them.
fn sweep_round(
    table: &Table,
    bound: &[u64; JobSet::MAX_JOBS],
    carried: &mut Carried,
    next: &mut [u64; JobSet::MAX_JOBS],
)
    requires { let t = table.now in
        Upwards (lent t.count t.columns) (bounds_in bound.now) × Ready t.count t.columns carried.old.released carried.old.delay × Spare t.count next.old }
    ensures { let t = table.now in Rounded t.count t.columns bound.now carried.new.released carried.new.delay next.new }
{
    let mut last: u64 = 0;
    let mut own: usize = 0;
    for j in 0..table.count {
        let chain = table.chain(j);
        own = first_of(last, chain, own, j);
        next[j] = largest_swept(table, bound, own, j, carried);
        last = chain;
    }
}

// Whether a scan is quicker than a sweep; the bounds are the same by either. Chains are numbered from 1, so that the last job has the number of them.
fn scan_pays(table: &Table) -> bool {
    let count = table.count;
    if count == 0 {
        return true;
    }
    count as u64 / SWEPT_FROM < table.chain(count - 1)
}

// The bounds of all jobs from the bounds before, which rise along each chain, into an array that has nothing behind the jobs. A chain alone is delayed
// by nobody.
pub(crate) fn round(
    table: &Table,
    bound: &[u64; JobSet::MAX_JOBS],
    carried: &mut Carried,
    next: &mut [u64; JobSet::MAX_JOBS],
)
    requires { let t = table.now in
        Upwards (lent t.count t.columns) (bounds_in bound.now) × Ready t.count t.columns carried.old.released carried.old.delay × Spare t.count next.old }
    ensures { let t = table.now in Rounded t.count t.columns bound.now carried.new.released carried.new.delay next.new }
{
    if table.end(0) == table.count {
        start(table, next);
        return;
    }
    if scan_pays(table) {
        scan_round(table, bound, next);
        return;
    }
    sweep_round(table, bound, carried, next);
}
