// What the rows of a recording say of each job: its work in all, the begin of its first row and the end of its last.
ghost use Rattle.std.specs.Prelude.{◌≡◌, cond, eqb};
ghost use Rattle.jobs.specs.Limits.{max_jobs};
ghost use Rattle.recording.specs.Reading.{rows_of};
ghost use Rattle.recording.proofs.Readable.{Readable};
ghost use Rattle.legality.proofs.Judging.{course_of};

use crate::figures::{COLUMNS, Figures, figure};
use jobs::set::JobSet;
use recording::reading::Recording;

pub const TOTAL: usize = 0;

pub const BEGIN: usize = 1;

pub const DONE: usize = 2;

// The begin of a job after one more of its rows, where it has worked `total` before: the first row's.
fn begin_after(total: u64, begin: u64, from: u64) -> u64
    ensures { result ≡ cond (eqb total 0) from begin }
{
    if total == 0 {
        return from;
    }
    begin
}

// One pass over the rows, which come in order of time, so that the last row of a job is the latest.
pub(crate) fn course_of(recording: Recording) -> Figures
    requires { Readable max_jobs recording }
    ensures { result ≡ course_of (rows_of recording) }
{
    let mut course = [[0u64; JobSet::MAX_JOBS]; COLUMNS];
    let count = recording.count;
    for n in 0..count {
        let row = recording.rows[n];
        let at = row.at;
        let total = figure(&course, TOTAL, at);
        let begin = figure(&course, BEGIN, at);
        course[TOTAL][at] = total + (row.to - row.from);
        course[BEGIN][at] = begin_after(total, begin, row.from);
        course[DONE][at] = row.to;
    }
    course
}
