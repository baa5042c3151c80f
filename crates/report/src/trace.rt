// The trace text of a table.
ghost use Rattle.std.specs.Prelude.{◌≡◌, ◌++◌, ◌*◌, ◌≤◌, length};
ghost use Rattle.laws.specs.Words.{tabulate, written as laws_written};
ghost use Rattle.jobs.specs.{Limits.max_jobs, Jobs.jobs_of, Checks.check_of};
ghost use Rattle.texts.specs.Lines.{lines_text};
ghost use Rattle.report.specs.Texts.{trace_header, entry_row, trace_text};
ghost use Rattle.texts.specs.Answers.{answer_to, answer_for, left_for};

use crate::columns::write_bytes;
use crate::entries::{entries_length, write_entries};
use jobs::most::most_times;
use jobs::refusal::Refusal;
use jobs::set::JobSet;
use machine::trace::{MAX_NUMBERS, trace};

const HEADER: [u8; 19] = *b"chain,job,from,to\r\n";

// Writes the header and the rows; the length is worked out first, so that a short buffer stays as it was.
fn write_trace(numbers: &[u64], count: usize, out: &mut [u8]) -> Result<u32, Refusal>
    requires { (4 * count ≤ length numbers.now) × (count ≤ 2 * max_jobs) }
    ensures { let text = trace_header ++ lines_text (tabulate 0 count (entry_row numbers.now)) in (result ≡ answer_to text out.old) × (out.new ≡ laws_written text out.old) }
{
    let length = HEADER.len() + entries_length(numbers, count);
    if out.len() < length {
        return Err(Refusal::ShortBuffer);
    }
    let at = write_bytes(&HEADER, out, 0);
    write_entries(numbers, count, out, at);
    Ok(length as u32)
}

// The trace text of an accepted set; the machine does not refuse its most times.
fn trace_set(set: JobSet, out: &mut [u8]) -> Result<u32, Refusal>
    requires { check_of (jobs_of set) ≡ Ok tt }
    ensures { (result ≡ answer_to (trace_text (jobs_of set)) out.old) × (out.new ≡ laws_written (trace_text (jobs_of set)) out.old) }
{
    let most = most_times(set);
    let mut numbers = [0u64; MAX_NUMBERS];
    let count = set.count;
    let traced = trace(set, &most[..count], &mut numbers)?;
    write_trace(&numbers, traced.entries, out)
}

// From the text of a table to the text of the run with all most times: the refusals of reading first, then 9.
pub fn trace_text(text: &[u8], out: &mut [u8]) -> Result<u32, Refusal>
    ensures { (result ≡ answer_for trace_text text.now out.old) × (out.new ≡ left_for trace_text text.now out.old) }
{
    let set = table::reading::read(text)?;
    trace_set(set, out)
}
