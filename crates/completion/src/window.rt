// The window of a chain in a pair: the jobs whose spans overlap the pair's stand together, and their largest block is found from the right.
ghost use Rattle.std.specs.Prelude.{◌≡◌, cond, ◌≤◌, ◌<◌, min, ltb};
ghost use Rattle.jobs.specs.Limits.{max_jobs};
ghost use Rattle.theory.proofs.ChainWindow.{Climbs, Released, Late, SweptIn, WholeIn, Chained, urgencies_in, releases_in};

use crate::block::opened;
use crate::table::Table;
use jobs::set::JobSet;

// The jobs from place lo to before hi, the sum over the block that touches lo, and the largest sum over a block.
#[derive(Clone, Copy)]
pub(crate) struct Window {
    pub lo: usize,
    pub hi: usize,
    pub edge: u64,
    pub largest: u64,
}

// The first place, of those from `start` to before `end`, whose job is released no earlier than `to`, and `end` where there is none.
pub(crate) fn first_late(table: &Table, start: usize, end: usize, to: u64) -> usize
    requires { (start ≤ end) × (end ≤ max_jobs) × Climbs (releases_in table.now.columns) start end }
    ensures { (start ≤ result) × (result ≤ end) × Late (releases_in table.now.columns) to result end }
{
    for i in start..end {
        if to <= table.earliest(i) {
            return i;
        }
    }
    end
}

// The place after the last job, of those from `first` to before `end`, that is released before `to`, and `first` where there is none.
pub(crate) fn after_early(table: &Table, first: usize, end: usize, to: u64) -> usize
    requires { (first ≤ end) × (end ≤ max_jobs) × Climbs (releases_in table.now.columns) first end }
    ensures { (first ≤ result) × (result ≤ end) × Released (releases_in table.now.columns) to first result × Late (releases_in table.now.columns) to result end }
{
    for i in (first..end).rev() {
        if table.earliest(i) < to {
            return i + 1;
        }
    }
    first
}

// The window to go on with at a job of this urgency: an empty one if the target falls.
fn turned(window: Window, low: u64, urgency: u64) -> Window
    ensures { result ≡ cond (ltb urgency low) (record { lo = window.hi; hi = window.hi; edge = 0; largest = 0 }) window }
{
    if urgency < low {
        return Window {
            lo: window.hi,
            hi: window.hi,
            edge: 0,
            largest: 0,
        };
    }
    window
}

// The window with all jobs of the chain before it that end after `from`.
fn grown(
    window: Window,
    table: &Table,
    bound: &[u64; JobSet::MAX_JOBS],
    first: usize,
    target: u64,
    from: u64,
) -> Window
    requires { SweptIn table.now.columns bound.now target from first window.lo window.hi window.edge window.largest × Chained table.now.columns bound.now first window.hi }
    ensures { WholeIn table.now.columns bound.now target from first result.lo window.hi result.edge result.largest × (result.hi ≡ window.hi) }
{
    let hi = window.hi;
    let mut edge = window.edge;
    let mut largest = window.largest;
    for p in (first..window.lo).rev() {
        if bound[p] <= from {
            return Window {
                lo: p + 1,
                hi,
                edge,
                largest,
            };
        }
        edge = opened(edge, target, table.urgency(p), table.most(p));
        largest = largest.max(edge);
    }
    Window {
        lo: first,
        hi,
        edge,
        largest,
    }
}

// The window in the pair that begins at k, from the one in the pair that begins a place later, whose lowest urgency is `low`.
pub(crate) fn met(
    window: Window,
    table: &Table,
    bound: &[u64; JobSet::MAX_JOBS],
    first: usize,
    low: u64,
    k: usize,
) -> Window
    requires { let from = releases_in table.now.columns k in
        (k < max_jobs) × SweptIn table.now.columns bound.now low from first window.lo window.hi window.edge window.largest × Chained table.now.columns bound.now first window.hi }
    ensures { let columns = table.now.columns in
        let target = min low (urgencies_in columns k) in
        WholeIn columns bound.now target (releases_in columns k) first result.lo window.hi result.edge result.largest × (result.hi ≡ window.hi) }
{
    let urgency = table.urgency(k);
    let ready = turned(window, low, urgency);
    grown(
        ready,
        table,
        bound,
        first,
        low.min(urgency),
        table.earliest(k),
    )
}
