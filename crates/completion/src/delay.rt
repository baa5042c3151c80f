// What the bounds of all jobs come from.
ghost use Rattle.std.specs.Prelude.{◌≡◌, ◌<◌};
ghost use Rattle.laws.specs.Words.{number_at, tabulate, padded};
ghost use Rattle.jobs.specs.{Limits.max_jobs, Jobs.jobs_of, Checks.check_of};
ghost use Rattle.theory.specs.{Bounds.overlap, Bounds.round as theory_round, Delays.delay_at, Delays.ert_delay};
ghost use Rattle.theory.proofs.{Columns.lent, Columns.column, Pairs.round_at};
ghost use Rattle.completion.specs.Delays.{number_in, delay_named, no_delay};

use crate::answer::{Bounds, Delay};
use crate::blocks::blocks_on;
use crate::first::{first_pair, lowest_from};
use crate::table::Table;
use crate::target::Target;
use jobs::set::JobSet;

// The numbers of an accepted set's jobs in their chains.
pub(crate) fn numbers_of(set: JobSet) -> [u16; JobSet::MAX_JOBS]
    requires { check_of (jobs_of set) ≡ Ok tt }
    ensures { result ≡ column set.count (number_in (jobs_of set)) }
{
    let mut numbers = [0u16; JobSet::MAX_JOBS];
    let count = set.count;
    for i in 0..count {
        let job = set.jobs[i];
        numbers[i] = job.job as u16;
    }
    numbers
}

// By ERT: each job's own number, and the blocks at its own urgency; the bound of every job is so late that each of them counts.
pub(crate) fn ert_delays(
    table: &Table,
    numbers: &[u16; JobSet::MAX_JOBS],
) -> [Delay; JobSet::MAX_JOBS]
    ensures { let t = lent table.now.count table.now.columns in
        result ≡ padded max_jobs no_delay (tabulate 0 t.count (λ j. delay_named (number_at numbers.now) (ert_delay t j))) }
{
    let late = [Bounds::LIMIT; JobSet::MAX_JOBS];
    let none = Delay::none();
    let mut delays = [none; JobSet::MAX_JOBS];
    for j in 0..table.count {
        let target = Target {
            chain: table.chain(j),
            urgency: table.urgency(j),
            from: 0,
            to: Bounds::LIMIT,
        };
        let blocks = blocks_on(table, &late, numbers, target);
        delays[j] = Delay {
            from: numbers[j],
            blocks,
        };
    }
    delays
}

// What the bound of j, which is `best`, comes from in a round after the bounds `bound`.
fn delay_at(
    table: &Table,
    bound: &[u64; JobSet::MAX_JOBS],
    numbers: &[u16; JobSet::MAX_JOBS],
    j: usize,
    best: u64,
) -> Delay
    requires { (j < table.now.count) × (best ≡ round_at (lent table.now.count table.now.columns) bound.now j) }
    ensures { let t = lent table.now.count table.now.columns in
        result ≡ delay_named (number_at numbers.now) (delay_at t (overlap t bound.now) j) }
{
    let k = first_pair(table, bound, j, best);
    let target = Target {
        chain: table.chain(j),
        urgency: lowest_from(table, k, j),
        from: table.earliest(k),
        to: bound[j],
    };
    Delay {
        from: numbers[k],
        blocks: blocks_on(table, bound, numbers, target),
    }
}

// By a round after the bounds `bound`, which gives the bounds `best`.
pub(crate) fn round_delays(
    table: &Table,
    bound: &[u64; JobSet::MAX_JOBS],
    numbers: &[u16; JobSet::MAX_JOBS],
    best: &[u64; JobSet::MAX_JOBS],
) -> [Delay; JobSet::MAX_JOBS]
    requires { best.now ≡ padded max_jobs 0 (theory_round (lent table.now.count table.now.columns) bound.now) }
    ensures { let t = lent table.now.count table.now.columns in
        result ≡ padded max_jobs no_delay (tabulate 0 t.count (λ j. delay_named (number_at numbers.now) (delay_at t (overlap t bound.now) j))) }
{
    let none = Delay::none();
    let mut delays = [none; JobSet::MAX_JOBS];
    for j in 0..table.count {
        delays[j] = delay_at(table, bound, numbers, j, best[j]);
    }
    delays
}
