// A whole recording, from its text to its rows.
ghost use Rattle.std.specs.Prelude.{◌≡◌, []};
ghost use Rattle.jobs.specs.{Jobs.jobs_of, Checks.check_of};
ghost use Rattle.table.specs.Lines.{lines_of};
ghost use Rattle.recording.specs.Reading.{row_in, recording_with, rows_from, recording_of};

use crate::row::{Row, is_next_row};
use jobs::check::check;
use jobs::place::place_of;
use jobs::refusal::Refusal;
use jobs::set::JobSet;
use table::header::read_header;
use table::line::{MAX_COLUMNS, read_line};

// The header, without the end of its line.
pub const HEADER: [u8; 17] = *b"chain,job,from,to";

// How many fields a row has.
pub const COLUMNS: usize = 4;

// The rows of a recording, in an array with a count beside it, as the part has no heap. Places from count on hold no row.
#[derive(Clone, Copy)]
pub struct Recording {
    pub rows: [Row; Recording::MAX_ROWS],
    pub count: usize,
}

impl Recording {
    pub const MAX_ROWS: usize = 256;

    // So many bytes at the start of a text decide how it is read, by the theorem `front_decides`: those of the header and of the most rows, and one more.
    pub const DECIDING_BYTES: usize = HEADER.len()
        + 2
        + Recording::MAX_ROWS * (COLUMNS * 11 + 1)
        + 1;
}

// A recording that holds no row.
fn empty() -> Recording
    ensures { result ≡ recording_with [] }
{
    let none = Row::none();
    Recording {
        rows: [none; Recording::MAX_ROWS],
        count: 0,
    }
}

// The row that a line's values describe, in the order of the columns.
fn row_of(set: JobSet, values: [u64; MAX_COLUMNS]) -> Row
    requires { check_of (jobs_of set) ≡ Ok tt }
    ensures { result ≡ row_in (jobs_of set) values }
{
    let at = place_of(set, values[0], values[1]);
    Row {
        at,
        from: values[2],
        to: values[3],
    }
}

// The rows of the lines of rest: 16, before a line is read, and 15, line by line, the first bad line deciding.
fn read_rows(set: JobSet, rest: &[u8]) -> Result<Recording, Refusal>
    requires { check_of (jobs_of set) ≡ Ok tt }
    ensures { result ≡ rows_from (jobs_of set) [] (lines_of rest.now) }
{
    let mut recording = empty();
    let mut last = Row::none();
    let mut at: usize = 0;
    // How far the next line goes is known only once it is read, so that no range counts the turns.
    while at < rest.len() {
        let n = recording.count;
        if Recording::MAX_ROWS <= n {
            return Err(Refusal::TooManyRows);
        }
        let Ok(line) = read_line(&rest[at..], COLUMNS) else {
            return Err(Refusal::MalformedRecording);
        };
        let row = row_of(set, line.values);
        if !is_next_row(set.count, n, last, row) {
            return Err(Refusal::MalformedRecording);
        }
        recording.rows[n] = row;
        recording.count = n + 1;
        last = row;
        at += line.length;
    }
    Ok(recording)
}

// The rows of a recording, or the refusal: those of the set, then 15 and 16.
pub fn read_recording(set: JobSet, text: &[u8]) -> Result<Recording, Refusal>
    ensures { result ≡ recording_of (jobs_of set) text.now }
{
    check(set)?;
    let Some(length) = read_header(text, &HEADER) else {
        return Err(Refusal::MalformedRecording);
    };
    read_rows(set, &text[length..])
}
