// The largest sum over the pairs that end with one job.
ghost use Rattle.std.specs.Prelude.{◌≡◌, ◌<◌};
ghost use Rattle.theory.proofs.{Columns.lent, Pairs.round_at, PairDelays.Pairable, SweptPairs.Ready};

use crate::carried::Carried;
use crate::interference::interference;
use crate::sweep::sweep_chains;
use crate::table::Table;
use crate::target::Target;
use jobs::set::JobSet;

// The pairs (k, j) with k from j down to the chain's first job, where a job counts if its span by `bound` overlaps the pair's, by a scan for each.
pub(crate) fn largest_scanned(table: &Table, bound: &[u64; JobSet::MAX_JOBS], j: usize) -> u64
    requires { j < table.now.count }
    ensures { result ≡ round_at (lent table.now.count table.now.columns) bound.now j }
{
    let own = table.chain(j);
    let to = bound[j];
    let mut sum: u64 = 0;
    let mut low = table.urgency(j);
    let mut best: u64 = 0;
    for k in (0..j + 1).rev() {
        if table.chain(k) != own {
            return best;
        }
        sum += table.most(k);
        low = low.min(table.urgency(k));
        let target = Target {
            chain: own,
            urgency: low,
            from: table.earliest(k),
            to,
        };
        let delay = interference(table, bound, target);
        best = best.max(table.latest(k) + sum + delay);
    }
    best
}

// The same by a sweep over the other chains, where `own` is the first place of j's chain; what it carries it leaves as it has to be for the next job.
pub(crate) fn largest_swept(
    table: &Table,
    bound: &[u64; JobSet::MAX_JOBS],
    own: usize,
    j: usize,
    carried: &mut Carried,
) -> u64
    requires { let t = table.now in Pairable t.count t.columns bound.now own j × Ready t.count t.columns carried.old.released carried.old.delay }
    ensures { let t = table.now in (result ≡ round_at (lent t.count t.columns) bound.now j) × Ready t.count t.columns carried.new.released carried.new.delay }
{
    sweep_chains(table, bound, own, j, carried);
    let mut sum: u64 = 0;
    let mut best: u64 = 0;
    for k in (own..j + 1).rev() {
        sum += table.most(k);
        best = best.max(table.latest(k) + sum + carried.delay[k]);
        carried.delay[k] = 0;
    }
    best
}
