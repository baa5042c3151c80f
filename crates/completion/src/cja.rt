// The CJA bounds.
ghost use Rattle.std.specs.Prelude.{◌≡◌};
ghost use Rattle.laws.specs.Words.{padded};
ghost use Rattle.jobs.specs.Limits.{max_jobs};
ghost use Rattle.theory.specs.Bounds.{cja as theory_cja};
ghost use Rattle.completion.specs.Answers.{cja_of, bounds_alone};
ghost use Rattle.theory.proofs.{Columns.lent};

use crate::answer::Bounds;
use crate::carried::Carried;
use crate::round::round;
use crate::table::Table;
use jobs::check::check;
use jobs::refusal::Refusal;
use jobs::set::JobSet;

// A round after bounds so late that each job counts. It stands alone, so that its arrays are not on the stack while the set is checked and laid out.
#[inline(never)]
fn late_round(table: &Table) -> [u64; JobSet::MAX_JOBS]
    ensures { result ≡ padded max_jobs 0 (theory_cja (lent table.now.count table.now.columns)) }
{
    let late = [Bounds::LIMIT; JobSet::MAX_JOBS];
    let mut carried = Carried::new();
    let mut bounds = [0u64; JobSet::MAX_JOBS];
    round(table, &late, &mut carried, &mut bounds);
    bounds
}

// The CJA bounds of all jobs alone.
pub fn cja_alone(set: JobSet) -> Result<[u64; JobSet::MAX_JOBS], Refusal>
    ensures { result ≡ bounds_alone (cja_of set) }
{
    check(set)?;
    let table = Table::of(set);
    Ok(late_round(&table))
}
