// The text of a table that lists the jobs of a set.
ghost use Rattle.std.specs.Prelude.{◌≡◌, ◌+◌, ◌*◌, ◌≤◌, map, pos, length};
ghost use Rattle.laws.specs.Words.{patched};
ghost use Rattle.jobs.specs.{Limits.max_jobs, Jobs.jobs_of};
ghost use Rattle.texts.specs.Lines.{lines_text};
ghost use Rattle.report.specs.Listing.{table_row, table_answer, table_left};

use crate::columns::{line_length, write_bytes, write_line};
use jobs::check::check;
use jobs::job::Job;
use jobs::refusal::Refusal;
use jobs::set::JobSet;
use table::header::HEADER;
use table::line::MAX_COLUMNS;

// The numbers and values of a job, in the order of the columns.
fn job_values(job: Job) -> [u64; MAX_COLUMNS]
    ensures { map pos result ≡ table_row job }
{
    [
        job.chain,
        job.job,
        job.release,
        job.priority,
        job.least,
        job.most,
        job.deadline,
    ]
}

// How many bytes the lines of a set's jobs take, at most 149 each: seven columns of at most 21, and 2.
fn jobs_length(set: JobSet) -> usize
    requires { set.count ≤ max_jobs }
    ensures { let lines = lines_text (map table_row (jobs_of set)) in (result ≡ length lines) × (result ≤ 149 * max_jobs) }
{
    let count = set.count;
    let mut sum: usize = 0;
    for n in 0..count {
        let values = job_values(set.jobs[n]);
        sum += line_length(&values);
    }
    sum
}

// Writes the lines of a set's jobs, and answers the place after them.
fn write_jobs(set: JobSet, out: &mut [u8], at: usize) -> usize
    requires count_le_max_jobs { set.count ≤ max_jobs }
    requires lines_in_bounds { let lines = lines_text (map table_row (jobs_of set)) in at + length lines ≤ length out.old }
    ensures { let lines = lines_text (map table_row (jobs_of set)) in (result ≡ at + length lines) × (out.new ≡ patched out.old at lines) }
{
    let count = set.count;
    let mut next = at;
    for n in 0..count {
        let values = job_values(set.jobs[n]);
        next = write_line(&values, out, next);
    }
    next
}

// The table of a set: the refusals of the set first, then 9; the length is worked out first, so that a short buffer stays as it was.
pub fn table_text(set: JobSet, out: &mut [u8]) -> Result<u32, Refusal>
    ensures { (result ≡ table_answer (jobs_of set) out.old) × (out.new ≡ table_left (jobs_of set) out.old) }
{
    if let Err(refusal) = check(set) {
        return Err(refusal);
    }
    let length = HEADER.len() + 2 + jobs_length(set);
    if out.len() < length {
        return Err(Refusal::ShortBuffer);
    }
    let after_header = write_bytes(&HEADER, out, 0);
    let at = write_bytes(b"\r\n", out, after_header);
    write_jobs(set, out, at);
    Ok(length as u32)
}
