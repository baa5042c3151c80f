// The bounds that ITR starts from: the ERT rule with interference 0.
ghost use Rattle.std.specs.Prelude.{◌≡◌};
ghost use Rattle.laws.specs.Words.{padded};
ghost use Rattle.jobs.specs.Limits.{max_jobs};
ghost use Rattle.theory.specs.Bounds.{itr_start};
ghost use Rattle.theory.proofs.{Columns.lent, Refilling.Spare};

use crate::predecessor::not_before;
use crate::table::Table;
use jobs::set::JobSet;

// Into an array that has nothing behind the jobs.
pub(crate) fn start(table: &Table, bounds: &mut [u64; JobSet::MAX_JOBS])
    requires { Spare table.now.count bounds.old }
    ensures { bounds.new ≡ padded max_jobs 0 (itr_start (lent table.now.count table.now.columns)) }
{
    let mut last: u64 = 0;
    let mut bound: u64 = 0;
    for i in 0..table.count {
        let own = table.chain(i);
        bound = not_before(last, own, table.latest(i), bound) + table.most(i);
        bounds[i] = bound;
        last = own;
    }
}
