// What is asked of the rows of a recording: in no gap does a job wait, and in no row one that is more urgent.
ghost use Rattle.std.specs.Prelude.{◌≡◌, ◌<◌, ◌≤◌, cond};
ghost use Rattle.jobs.specs.Limits.{max_jobs};
ghost use Rattle.recording.specs.Reading.{rows_of};
ghost use Rattle.recording.proofs.Readable.{Readable};
ghost use Rattle.legality.proofs.Judging.{Following, meeting, held_up, row_fits_in, rows_fit_in};

use crate::course::DONE;
use crate::figures::{Figures, figure};
use crate::waiting::{READY, URGENCY};
use recording::reading::Recording;
use recording::row::Row;

// Whether the time from `ready` up to `done` shares a tick with that from `from` up to `to`.
fn meets(from: u64, to: u64, ready: u64, done: u64) -> bool
    ensures { result ≡ meeting from to ready done }
{
    (from < to) & (from < done) & (ready < to) & (ready < done)
}

// The time up to which a row and the gap before it may not hold up a job: the row's end for one of higher priority, its begin for any other.
fn limit_for(row: Row, higher: bool) -> u64
    ensures { result ≡ cond higher row.to row.from }
{
    if higher {
        return row.to;
    }
    row.from
}

// Whether job v waits in the gap, which goes from `gap` to the row, or waits while the row lasts and is more urgent than the row's job.
fn is_held_up(gap: u64, row: Row, v: usize, waiting: &Figures) -> bool
    requires { (v < max_jobs) × Following gap row }
    ensures { result ≡ held_up waiting.now gap row v }
{
    let higher = figure(waiting, URGENCY, row.at) < figure(waiting, URGENCY, v);
    let limit = limit_for(row, higher);
    let ready = figure(waiting, READY, v);
    let done = figure(waiting, DONE, v);
    meets(gap, limit, ready, done)
}

// Whether a row and the gap before it hold up none of the first count jobs.
fn row_fits(gap: u64, row: Row, count: usize, waiting: &Figures) -> bool
    requires { (count ≤ max_jobs) × Following gap row }
    ensures { result ≡ row_fits_in waiting.now count gap row }
{
    for v in 0..count {
        if is_held_up(gap, row, v, waiting) {
            return false;
        }
    }
    true
}

// The gap before a row begins where the row before ends, and the first at time 0.
pub(crate) fn rows_fit(recording: Recording, count: usize, waiting: &Figures) -> bool
    requires { (count ≤ max_jobs) × Readable count recording }
    ensures { result ≡ rows_fit_in waiting.now count 0 (rows_of recording) }
{
    let rows = recording.count;
    let mut gap: u64 = 0;
    for n in 0..rows {
        let row = recording.rows[n];
        let fits = row_fits(gap, row, count, waiting);
        if !fits {
            return false;
        }
        gap = row.to;
    }
    true
}
