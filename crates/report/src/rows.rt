// The rows of the bounds text.
ghost use Rattle.std.specs.Prelude.{◌≡◌, ◌+◌, ◌*◌, ◌≤◌, length};
ghost use Rattle.laws.specs.Words.{tabulate, patched};
ghost use Rattle.jobs.specs.Limits.{max_jobs};
ghost use Rattle.texts.specs.Lines.{lines_text};
ghost use Rattle.report.specs.Texts.{bounds_row};

use crate::row::{row_length, row_of, write_row};
use analysis::answer::Figures;
use jobs::set::JobSet;

// How many bytes the rows of a set take, at most 129 each.
pub(crate) fn rows_length(set: JobSet, figures: Figures) -> usize
    requires { set.count ≤ max_jobs }
    ensures { let rows = tabulate 0 set.count (bounds_row set.jobs figures.ert figures.cja figures.itr figures.slacks) in (result ≡ length (lines_text rows)) × (result ≤ 129 * max_jobs) }
{
    let count = set.count;
    let mut sum: usize = 0;
    for n in 0..count {
        let row = row_of(
            set.jobs[n],
            &figures.ert,
            &figures.cja,
            &figures.itr,
            &figures.slacks,
            n,
        );
        sum += row_length(row);
    }
    sum
}

// Writes the rows of a set, and answers the place after them.
pub(crate) fn write_rows(set: JobSet, figures: Figures, out: &mut [u8], at: usize) -> usize
    requires count_le_max_jobs { set.count ≤ max_jobs }
    requires rows_in_bounds { let rows = tabulate 0 set.count (bounds_row set.jobs figures.ert figures.cja figures.itr figures.slacks) in at + length (lines_text rows) ≤ length out.old }
    ensures { let rows = tabulate 0 set.count (bounds_row set.jobs figures.ert figures.cja figures.itr figures.slacks) in (result ≡ at + length (lines_text rows)) × (out.new ≡ patched out.old at (lines_text rows)) }
{
    let count = set.count;
    let mut next = at;
    for n in 0..count {
        let row = row_of(
            set.jobs[n],
            &figures.ert,
            &figures.cja,
            &figures.itr,
            &figures.slacks,
            n,
        );
        next = write_row(row, out, next);
    }
    next
}
