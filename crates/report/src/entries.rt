// The rows of the trace text: four numbers each, one row after another in a slice.
ghost use Rattle.std.specs.Prelude.{◌≡◌, ◌+◌, ◌*◌, ◌≤◌, length};
ghost use Rattle.laws.specs.Words.{tabulate, patched};
ghost use Rattle.jobs.specs.Limits.{max_jobs};
ghost use Rattle.texts.specs.Lines.{lines_text};
ghost use Rattle.report.specs.Texts.{entry_row};

use crate::columns::{line_length, write_line};

// How many bytes the first entries take, at most 86 each: four columns of at most 21, and 2.
pub(crate) fn entries_length(numbers: &[u64], count: usize) -> usize
    requires { (4 * count ≤ length numbers.now) × (count ≤ 2 * max_jobs) }
    ensures { let rows = tabulate 0 count (entry_row numbers.now) in (result ≡ length (lines_text rows)) × (result ≤ 172 * max_jobs) }
{
    let mut sum: usize = 0;
    for n in 0..count {
        let from = 4 * n;
        let to = from + 4;
        sum += line_length(&numbers[from..to]);
    }
    sum
}

// Writes the first entries, and answers the place after them.
pub(crate) fn write_entries(numbers: &[u64], count: usize, out: &mut [u8], at: usize) -> usize
    requires count_in_bounds { 4 * count ≤ length numbers.now }
    requires rows_in_bounds { let rows = tabulate 0 count (entry_row numbers.now) in at + length (lines_text rows) ≤ length out.old }
    ensures { let rows = tabulate 0 count (entry_row numbers.now) in (result ≡ at + length (lines_text rows)) × (out.new ≡ patched out.old at (lines_text rows)) }
{
    let mut next = at;
    for n in 0..count {
        let from = 4 * n;
        let to = from + 4;
        next = write_line(&numbers[from..to], out, next);
    }
    next
}
