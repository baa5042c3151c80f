// The entries of a trace, four numbers each, as spans of jobs at their places.
ghost use Rattle.std.specs.Prelude.{◌≡◌, ◌+◌, ◌*◌, ◌≤◌, length};
ghost use Rattle.jobs.specs.{Limits.max_jobs, Jobs.jobs_of};
ghost use Rattle.dumps.proofs.Entries.{span_at, spans_of, first_place};

use jobs::place::place_of;
use jobs::set::JobSet;
use machine::trace::Span;

// The span of entry n.
pub(crate) fn span_at(set: JobSet, numbers: &[u64], n: usize) -> Span
    requires { (set.count ≤ max_jobs) × (4 * n + 4 ≤ length numbers.now) }
    ensures { (result ≡ span_at (jobs_of set) numbers.now n) × (result.at ≤ max_jobs) }
{
    let k = 4 * n;
    let chain = numbers[k];
    let number = numbers[k + 1];
    let from = numbers[k + 2];
    let to = numbers[k + 3];
    let at = place_of(set, chain, number);
    Span { at, from, to }
}

// The place of the job that runs from time 0 on, or one that no job has.
pub(crate) fn first_place(set: JobSet, numbers: &[u64], entries: usize) -> usize
    requires { (set.count ≤ max_jobs) × (4 * entries ≤ length numbers.now) }
    ensures { result ≡ first_place (spans_of (jobs_of set) numbers.now entries) }
{
    if entries == 0 {
        return JobSet::MAX_JOBS;
    }
    let span = span_at(set, numbers, 0);
    if span.from == 0 {
        return span.at;
    }
    JobSet::MAX_JOBS
}
