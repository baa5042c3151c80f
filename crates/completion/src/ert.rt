// The ERT bounds.
ghost use Rattle.std.specs.Prelude.{◌≡◌};
ghost use Rattle.laws.specs.Words.{padded};
ghost use Rattle.jobs.specs.Limits.{max_jobs};
ghost use Rattle.theory.specs.Bounds.{ert as theory_ert};
ghost use Rattle.completion.specs.Answers.{ert_of, bounds_alone};
ghost use Rattle.theory.proofs.{Columns.lent};

use crate::answer::Bounds;
use crate::interference::interference;
use crate::predecessor::not_before;
use crate::table::Table;
use crate::target::Target;
use jobs::check::check;
use jobs::refusal::Refusal;
use jobs::set::JobSet;

// By the ERT rule, job by job; the bound of every job is so late that each of them counts. It stands alone, so that its arrays are not on the stack while the
// set is checked and laid out.
#[inline(never)]
fn by_rule(table: &Table) -> [u64; JobSet::MAX_JOBS]
    ensures { result ≡ padded max_jobs 0 (theory_ert (lent table.now.count table.now.columns)) }
{
    let late = [Bounds::LIMIT; JobSet::MAX_JOBS];
    let mut bounds = [0u64; JobSet::MAX_JOBS];
    let mut last: u64 = 0;
    let mut bound: u64 = 0;
    for i in 0..table.count {
        let own = table.chain(i);
        let target = Target {
            chain: own,
            urgency: table.urgency(i),
            from: 0,
            to: Bounds::LIMIT,
        };
        let delay = interference(table, &late, target);
        bound = not_before(last, own, table.latest(i), bound) + table.most(i) + delay;
        bounds[i] = bound;
        last = own;
    }
    bounds
}

// The ERT bounds of all jobs alone.
pub fn ert_alone(set: JobSet) -> Result<[u64; JobSet::MAX_JOBS], Refusal>
    ensures { result ≡ bounds_alone (ert_of set) }
{
    check(set)?;
    let table = Table::of(set);
    Ok(by_rule(&table))
}
