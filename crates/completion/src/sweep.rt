// The interference on all pairs that end with one job, chain by chain: a sweep over the pairs, from the shortest on, keeps the chain's window.
ghost use Rattle.theory.proofs.{Columns.figure, ChainWindow.Released, ChainWindow.releases_in, ChainWindow.bounds_in};
ghost use Rattle.theory.proofs.{PairShares.Sweepable, PairShares.Small, PairShares.Raised, PairShares.share_in};
ghost use Rattle.theory.proofs.{PairDelays.Pairable, PairDelays.CountedAt, PairDelays.Counted, PairDelays.Moved, PairDelays.other_in, PairDelays.Delayed, SweptPairs.Ready};

use crate::carried::Carried;
use crate::table::Table;
use crate::window::{Window, after_early, first_late, met};
use jobs::set::JobSet;

// The largest block of the jobs from `first` to before `hi`, added for each pair (k, j) with k from j down to `own`, the first place of j's chain.
// Places stay numbers beside each other: a struct of `own` and `j` would hold what theory's `Pairable` says of them already.
fn sweep(
    table: &Table,
    bound: &[u64; JobSet::MAX_JOBS],
    own: usize,
    j: usize,
    first: usize,
    hi: usize,
    delay: &mut [u64; JobSet::MAX_JOBS],
)
    requires { Sweepable table.now.columns bound.now own j first hi × Released (releases_in table.now.columns) (bounds_in bound.now j) first hi × Small own j first delay.old }
    ensures { Raised own j (share_in table.now.columns bound.now j first hi) delay.old delay.new }
{
    let mut window = Window {
        lo: hi,
        hi,
        edge: 0,
        largest: 0,
    };
    let mut low = table.urgency(j);
    for k in (own..j + 1).rev() {
        window = met(window, table, bound, first, low, k);
        low = low.min(table.urgency(k));
        delay[k] += window.largest;
    }
}

// The same for the chain that begins at `first`, and nothing where it is j's own: its window ends where it did for the last job, or near there.
fn sweep_chain(
    table: &Table,
    bound: &[u64; JobSet::MAX_JOBS],
    own: usize,
    j: usize,
    first: usize,
    carried: &mut Carried,
)
    requires { let end = figure table.now.columns 5 first in
        Sweepable table.now.columns bound.now own j first end × CountedAt first end carried.old.released × Small own j first carried.old.delay }
    ensures { let columns = table.now.columns in
        Raised own j (other_in columns bound.now j first) carried.old.delay carried.new.delay × Moved first (figure columns 5 first) carried.old.released carried.new.released }
{
    if table.chain(first) == table.chain(j) {
        return;
    }
    let to = bound[j];
    let near = first + carried.released[first];
    let late = first_late(table, near, table.end(first), to);
    let hi = after_early(table, first, late, to);
    carried.released[first] = hi - first;
    sweep(table, bound, own, j, first, hi, &mut carried.delay);
}

// The interference on each pair (k, j) with k from `own` on, into an array of zeros.
pub(crate) fn sweep_chains(
    table: &Table,
    bound: &[u64; JobSet::MAX_JOBS],
    own: usize,
    j: usize,
    carried: &mut Carried,
)
    requires { let t = table.now in Pairable t.count t.columns bound.now own j × Ready t.count t.columns carried.old.released carried.old.delay }
    ensures { let t = table.now in Delayed t.count t.columns bound.now own j carried.new.delay × Counted t.count t.columns carried.new.released }
{
    let mut i: usize = 0;
    // A turn jumps to the place after a chain, which no range of places does.
    while i < table.count {
        sweep_chain(table, bound, own, j, i, carried);
        i = table.end(i);
    }
}
