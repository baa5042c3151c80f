// The changes after time 0: each span begins, and ends.
ghost use Rattle.std.specs.Prelude.{◌+◌, ◌*◌, ◌≤◌, length};
ghost use Rattle.laws.proofs.Clipped.{Put};
ghost use Rattle.jobs.specs.{Limits.max_jobs, Jobs.jobs_of};
ghost use Rattle.dumps.specs.{Dumps.lines_text, Dumps.rise_after, Dumps.span_lines, Dumps.change_lines, Claims.max_waveform};
ghost use Rattle.dumps.proofs.Entries.{spans_of};

use crate::entries::span_at;
use crate::lines::{put_time, put_value};
use jobs::set::JobSet;
use machine::trace::Span;

// Puts the lines of a span's beginning after those of the time `last`, and answers the place after them.
fn put_rise(last: u64, span: Span, out: &mut [u8], at: usize) -> usize
    requires { (span.at ≤ max_jobs) × (at + length (lines_text (rise_after last span)) ≤ max_waveform) }
    ensures { Put out.old at (lines_text (rise_after last span)) out.new result }
{
    if span.from == 0 {
        return at;
    }
    if span.from == last {
        return put_value(true, span.at, out, at);
    }
    let value = put_time(span.from, out, at);
    put_value(true, span.at, out, value)
}

// Puts the changes of a span after those of the time `last`, and answers the place after them.
fn put_span(last: u64, span: Span, out: &mut [u8], at: usize) -> usize
    requires { (span.at ≤ max_jobs) × (at + length (lines_text (span_lines last span)) ≤ max_waveform) }
    ensures { Put out.old at (lines_text (span_lines last span)) out.new result }
{
    let time = put_rise(last, span, out, at);
    let value = put_time(span.to, out, time);
    put_value(false, span.at, out, value)
}

// Puts the changes of the first entries, and answers the place after them.
pub(crate) fn put_changes(
    set: JobSet,
    numbers: &[u64],
    entries: usize,
    out: &mut [u8],
    at: usize,
) -> usize
    requires count_le_max_jobs { (set.count ≤ max_jobs) × (4 * entries ≤ length numbers.now) }
    requires entries_bound { at + length (lines_text (change_lines (spans_of (jobs_of set) numbers.now entries))) ≤ max_waveform }
    ensures { Put out.old at (lines_text (change_lines (spans_of (jobs_of set) numbers.now entries))) out.new result }
{
    let mut next = at;
    let mut last: u64 = 0;
    for n in 0..entries {
        let span = span_at(set, numbers, n);
        next = put_span(last, span, out, next);
        last = span.to;
    }
    next
}
