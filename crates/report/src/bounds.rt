// The bounds text of a table.
ghost use Rattle.std.specs.Prelude.{◌≡◌, ◌++◌, ◌≤◌};
ghost use Rattle.laws.specs.Words.{tabulate, written as laws_written};
ghost use Rattle.jobs.specs.Limits.{max_jobs};
ghost use Rattle.texts.specs.Lines.{lines_text};
ghost use Rattle.report.specs.Texts.{bounds_header, bounds_row, bounds_text};
ghost use Rattle.texts.specs.Answers.{answer_to, answer_for, left_for};

use crate::columns::write_bytes;
use crate::rows::{rows_length, write_rows};
use analysis::answer::Figures;
use analysis::figures::figures;
use jobs::refusal::Refusal;
use jobs::set::JobSet;

const HEADER: [u8; 29] = *b"chain,job,ert,cja,itr,slack\r\n";

// Writes the header and the rows; the length is worked out first, so that a short buffer stays as it was.
fn write_bounds(set: JobSet, figures: Figures, out: &mut [u8]) -> Result<u32, Refusal>
    requires { set.count ≤ max_jobs }
    ensures { let text = bounds_header ++ lines_text (tabulate 0 set.count (bounds_row set.jobs figures.ert figures.cja figures.itr figures.slacks)) in (result ≡ answer_to text out.old) × (out.new ≡ laws_written text out.old) }
{
    let length = HEADER.len() + rows_length(set, figures);
    if out.len() < length {
        return Err(Refusal::ShortBuffer);
    }
    let at = write_bytes(&HEADER, out, 0);
    write_rows(set, figures, out, at);
    Ok(length as u32)
}

// From the text of a table to the text of its bounds: the refusals of reading first, then 9.
pub fn bounds_text(text: &[u8], out: &mut [u8]) -> Result<u32, Refusal>
    ensures { (result ≡ answer_for bounds_text text.now out.old) × (out.new ≡ left_for bounds_text text.now out.old) }
{
    let set = table::reading::read(text)?;
    write_bounds(set, figures(set)?, out)
}
