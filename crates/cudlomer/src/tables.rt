// The functions on the text of a table.
ghost use Rattle.std.specs.Prelude.{◌≡◌};
ghost use Rattle.texts.specs.Answers.{answer_for, left_for};
ghost use Rattle.report.specs.Texts.{bounds_text, trace_text};
ghost use Rattle.cudlomer.specs.{Codes.written_code, Codes.verdict_code, Tables.verdict_of_table, Tables.rounds_of_table};

use crate::codes::{negated, verdict_code, written_code};
use crate::sets::rounds_of;
use analysis::verdict::verdict;
use report::bounds::bounds_text;
use report::trace::trace_text;

// Writes the bounds text of a table into out, and answers the bytes written.
#[unsafe(no_mangle)]
pub extern "C" fn cudlomer_bounds(text: &[u8], out: &mut [u8]) -> i64
    ensures { (result ≡ written_code (answer_for bounds_text text.now out.old)) × (out.new ≡ left_for bounds_text text.now out.old) }
{
    written_code(bounds_text(text, out))
}

// Writes the trace text of a table into out, and answers the bytes written.
#[unsafe(no_mangle)]
pub extern "C" fn cudlomer_trace(text: &[u8], out: &mut [u8]) -> i64
    ensures { (result ≡ written_code (answer_for trace_text text.now out.old)) × (out.new ≡ left_for trace_text text.now out.old) }
{
    written_code(trace_text(text, out))
}

// Answers 1 where all deadlines are met by the algorithm 1 ERT, 2 CJA or 3 ITR, and 0 where they are not.
#[unsafe(no_mangle)]
pub extern "C" fn cudlomer_verdict(text: &[u8], algorithm: u8) -> i64
    ensures { result ≡ verdict_code (verdict_of_table text.now algorithm) }
{
    match table::reading::read(text) {
        Err(refusal) => negated(refusal),
        Ok(set) => verdict_code(verdict(set, algorithm as u64)),
    }
}

// Answers how many rounds ITR takes.
#[unsafe(no_mangle)]
pub extern "C" fn cudlomer_rounds(text: &[u8]) -> i64
    ensures { result ≡ rounds_of_table text.now }
{
    match table::reading::read(text) {
        Err(refusal) => negated(refusal),
        Ok(set) => rounds_of(set),
    }
}
