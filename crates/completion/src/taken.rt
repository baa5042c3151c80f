// The block that the interference takes of one chain.
ghost use Rattle.std.specs.Prelude.{◌≡◌, ◌+◌, ◌-◌, ◌^◌, ◌≤◌, ◌<◌, ◌&&◌, eqb, ltb};
ghost use Rattle.laws.specs.Words.{number_at};
ghost use Rattle.jobs.specs.Limits.{max_jobs};
ghost use Rattle.theory.specs.Delays.{taken_block};
ghost use Rattle.theory.proofs.{Columns.lent, Endings.First, Endings.EndsAt, Weights.spanned, Scans.start_next};
ghost use Rattle.completion.specs.Delays.{block_named};

use crate::answer::Block;
use crate::block::{counted, largest_block, opened};
use crate::table::Table;
use crate::target::Target;
use jobs::set::JobSet;

// Whether the jobs from `start` to before `end` are some, with the largest sum.
fn is_largest(start: usize, end: usize, sum: u64, largest: u64) -> bool
    ensures { result ≡ ltb start end && eqb sum largest }
{
    (start < end) & (sum == largest)
}

// Whether the job at i ends a block with the largest sum, being less urgent than the target.
fn ends_largest(start: usize, i: usize, sum: u64, largest: u64, target: u64, urgency: u64) -> bool
    ensures { result ≡ ltb urgency target && (ltb start i && eqb sum largest) }
{
    (urgency < target) & is_largest(start, i, sum, largest)
}

// Where the open block starts after the job at i.
fn start_next(start: usize, target: u64, urgency: u64, i: usize) -> usize
    requires { i + 1 < 2 ^ 64 }
    ensures { result ≡ start_next start target urgency i }
{
    if urgency < target {
        return i + 1;
    }
    start
}

// The jobs from place `first` to before place `end`, of which there are some, by their numbers.
fn named(numbers: &[u16; JobSet::MAX_JOBS], first: usize, end: usize) -> Block
    requires { (first < end) × (end ≤ max_jobs) }
    ensures { result ≡ block_named (number_at numbers.now) (record { first = first; end = end }) }
{
    Block {
        first: numbers[first],
        last: numbers[end - 1],
    }
}

// Of the blocks with the largest sum the first, over the places from `first` to before `end`, all those of one chain.
pub(crate) fn taken_block(
    table: &Table,
    bound: &[u64; JobSet::MAX_JOBS],
    numbers: &[u16; JobSet::MAX_JOBS],
    target: Target,
    first: usize,
    end: usize,
) -> Block
    requires { let t = lent table.now.count table.now.columns in (first < t.count) × First t.chain first × EndsAt t.count t.chain first end }
    ensures { let t = lent table.now.count table.now.columns in
        let taken = taken_block t (t.chain first) target.urgency (spanned table.now.columns bound.now target.from target.to) in
        result ≡ block_named (number_at numbers.now) taken }
{
    let largest = largest_block(table, bound, target, first, end);
    let mut start = first;
    let mut sum: u64 = 0;
    for i in first..end {
        let urgency = table.urgency(i);
        if ends_largest(start, i, sum, largest, target.urgency, urgency) {
            return named(numbers, start, i);
        }
        let counts = counted(table, bound, target, i);
        sum = opened(sum, target.urgency, urgency, counts);
        start = start_next(start, target.urgency, urgency, i);
    }
    if is_largest(start, end, sum, largest) {
        return named(numbers, start, end);
    }
    Block::none()
}
