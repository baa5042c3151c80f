// A row of the bounds text.
ghost use Rattle.std.specs.Prelude.{◌≡◌, ◌+◌, ◌≤◌, ◌<◌, [], ◌∷◌, pos, length, get_or};
ghost use Rattle.laws.specs.Words.{patched};
ghost use Rattle.jobs.specs.Limits.{max_jobs};
ghost use Rattle.texts.specs.Lines.{after_commas, lines_text};

use crate::columns::{columns_length, write_bytes, write_columns};
use decimal::signed::{signed_length, write_signed};
use jobs::job::Job;
use jobs::set::JobSet;

// The columns of a row.
#[derive(Clone, Copy)]
pub struct Row {
    pub chain: u64,
    pub job: u64,
    pub ert: u64,
    pub cja: u64,
    pub itr: u64,
    pub slack: i64,
}

// The row of the job at place n, whose bounds and slack stand at that place.
pub(crate) fn row_of(
    job: Job,
    ert: &[u64; JobSet::MAX_JOBS],
    cja: &[u64; JobSet::MAX_JOBS],
    itr: &[u64; JobSet::MAX_JOBS],
    slacks: &[i64; JobSet::MAX_JOBS],
    n: usize,
) -> Row
    requires { n < max_jobs }
    ensures { result ≡ record { chain = job.chain; job = job.job; ert = get_or ert.now n 0; cja = get_or cja.now n 0; itr = get_or itr.now n 0; slack = get_or slacks.now n (pos 0) } }
{
    Row {
        chain: job.chain,
        job: job.job,
        ert: ert[n],
        cja: cja[n],
        itr: itr[n],
        slack: slacks[n],
    }
}

// How many bytes the row takes: five columns of at most 21, at most 21 for the slack, and 3.
pub(crate) fn row_length(row: Row) -> usize
    ensures { let line = lines_text ((pos row.chain ∷ pos row.job ∷ pos row.ert ∷ pos row.cja ∷ pos row.itr ∷ row.slack ∷ []) ∷ []) in (result ≡ length line) × (result ≤ 129) }
{
    let values = [row.chain, row.job, row.ert, row.cja, row.itr];
    columns_length(&values) + signed_length(row.slack) + 3
}

// Writes a comma and the slack, and answers the place after them.
fn write_slack(slack: i64, out: &mut [u8], at: usize) -> usize
    requires { let text = after_commas (slack ∷ []) in at + length text ≤ length out.old }
    ensures { let text = after_commas (slack ∷ []) in (result ≡ at + length text) × (out.new ≡ patched out.old at text) }
{
    out[at] = b',';
    let next = at + 1;
    next + write_signed(slack, &mut out[next..])
}

// Writes the row, and answers the place after it.
pub(crate) fn write_row(row: Row, out: &mut [u8], at: usize) -> usize
    requires { let line = lines_text ((pos row.chain ∷ pos row.job ∷ pos row.ert ∷ pos row.cja ∷ pos row.itr ∷ row.slack ∷ []) ∷ []) in at + length line ≤ length out.old }
    ensures { let line = lines_text ((pos row.chain ∷ pos row.job ∷ pos row.ert ∷ pos row.cja ∷ pos row.itr ∷ row.slack ∷ []) ∷ []) in (result ≡ at + length line) × (out.new ≡ patched out.old at line) }
{
    let values = [row.chain, row.job, row.ert, row.cja, row.itr];
    let after_columns = write_columns(&values, out, at);
    let after_slack = write_slack(row.slack, out, after_columns);
    write_bytes(b"\r\n", out, after_slack)
}
