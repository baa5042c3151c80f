// How long the jobs of other chains can hold up a pair, chain by chain.
ghost use Rattle.std.specs.Prelude.{◌≡◌};
ghost use Rattle.theory.specs.Bounds.{interference as theory_interference};
ghost use Rattle.theory.proofs.{Columns.lent, Weights.spanned};

use crate::block::share;
use crate::table::Table;
use crate::target::Target;
use jobs::set::JobSet;

// The interference on a target.
pub(crate) fn interference(table: &Table, bound: &[u64; JobSet::MAX_JOBS], target: Target) -> u64
    ensures { let t = table.now in
        result ≡ theory_interference (lent t.count t.columns) target.chain target.urgency (spanned t.columns bound.now target.from target.to) }
{
    let mut total: u64 = 0;
    let mut i: usize = 0;
    // A turn jumps to the place after a chain, which no range of places does.
    while i < table.count {
        let end = table.end(i);
        total += share(table, bound, target, i, end);
        i = end;
    }
    total
}
