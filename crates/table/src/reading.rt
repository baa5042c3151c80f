// A whole job table, from its text to the set of its jobs.
ghost use Rattle.std.specs.Prelude.{◌≡◌, []};
ghost use Rattle.table.specs.{Lines.lines_of, Tables.job_of, Tables.records_from, Tables.reading_of};

use crate::header::{HEADER, read_header};
use crate::line::{MAX_COLUMNS, read_line};
use jobs::job::Job;
use jobs::record::check_record;
use jobs::refusal::Refusal;
use jobs::set::JobSet;

// The most bytes that a table's text has.
pub const MAX_TEXT: usize = 4096;

// The job that a record's values describe, in the order of the columns.
fn job_of(values: [u64; MAX_COLUMNS]) -> Job
    ensures { result ≡ job_of values }
{
    Job {
        chain: values[0],
        job: values[1],
        release: values[2],
        priority: values[3],
        least: values[4],
        most: values[5],
        deadline: values[6],
    }
}

// The records of the lines of rest: 3 and the check of the record, line by line, the first bad line deciding, then 7.
fn read_records(rest: &[u8]) -> Result<JobSet, Refusal>
    ensures { result ≡ records_from [] (lines_of rest.now) }
{
    let mut set = JobSet::empty();
    let mut last = Job::none();
    let mut at: usize = 0;
    // How far the next line goes is known only once it is read, so that no range counts the turns.
    while at < rest.len() {
        let line = read_line(&rest[at..], MAX_COLUMNS)?;
        let job = job_of(line.values);
        let n = set.count;
        check_record(n, last, job)?;
        set.jobs[n] = job;
        set.count = n + 1;
        last = job;
        at += line.length;
    }
    if set.count == 0 {
        return Err(Refusal::NoRecord);
    }
    Ok(set)
}

// The jobs of a table, or the refusal: 1 and 2 first, then those of its lines.
pub fn read(text: &[u8]) -> Result<JobSet, Refusal>
    ensures { result ≡ reading_of text.now }
{
    if MAX_TEXT < text.len() {
        return Err(Refusal::TextTooLong);
    }
    let Some(length) = read_header(text, &HEADER) else {
        return Err(Refusal::NotHeader);
    };
    read_records(&text[length..])
}
