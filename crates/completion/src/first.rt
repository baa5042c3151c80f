// The first pair that gives a bound.
ghost use Rattle.std.specs.Prelude.{◌≡◌, ◌≤◌, ◌<◌};
ghost use Rattle.theory.specs.{Bounds.lowest, Bounds.overlap, Delays.first_pair};
ghost use Rattle.theory.proofs.{Columns.lent, Pairs.round_at, FirstPairs.earlier as theory_earlier};

use crate::interference::interference;
use crate::table::Table;
use crate::target::Target;
use jobs::set::JobSet;

// The first k so far, after the pair of k: k where its sum is the bound.
fn earlier(value: u64, best: u64, k: usize, first: usize) -> usize
    ensures { result ≡ theory_earlier value best k first }
{
    if value == best {
        return k;
    }
    first
}

// The first job of the first pair whose sum is the largest for j, which is `best`.
pub(crate) fn first_pair(
    table: &Table,
    bound: &[u64; JobSet::MAX_JOBS],
    j: usize,
    best: u64,
) -> usize
    requires { (j < table.now.count) × (best ≡ round_at (lent table.now.count table.now.columns) bound.now j) }
    ensures { let t = lent table.now.count table.now.columns in result ≡ first_pair t (overlap t bound.now) j }
{
    let own = table.chain(j);
    let to = bound[j];
    let mut sum: u64 = 0;
    let mut low = table.urgency(j);
    let mut first = j + 1;
    for k in (0..j + 1).rev() {
        if table.chain(k) != own {
            return first;
        }
        sum += table.most(k);
        low = low.min(table.urgency(k));
        let target = Target {
            chain: own,
            urgency: low,
            from: table.earliest(k),
            to,
        };
        let delay = interference(table, bound, target);
        first = earlier(table.latest(k) + sum + delay, best, k, first);
    }
    first
}

// The lowest urgency of the jobs from k to j.
pub(crate) fn lowest_from(table: &Table, k: usize, j: usize) -> u64
    requires { (k ≤ j) × (j < table.now.count) }
    ensures { result ≡ lowest (lent table.now.count table.now.columns) k j }
{
    let mut low = table.urgency(k);
    for i in k + 1..j + 1 {
        low = low.min(table.urgency(i));
    }
    low
}
