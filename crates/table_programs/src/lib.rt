// What the programs on one table have in common: the table comes from standard input, and the text that is made of it is printed.
#![tactic(auto)]

pub mod writer;

ghost use Rattle.std.specs.Prelude.{◌≡◌, ◌⊎◌, List, ℕ, IfOk};
ghost use Rattle.jobs.specs.declared.job.Job.{Job};
ghost use Rattle.texts.specs.Answers.{answer_for, left_for, print_left_for};

use jobs::refusal::Refusal;
use std::io;
use streams::{front, print, read_full};
use table::reading::MAX_TEXT;
use texts::refused::ready_to_print;

// The text that a program makes of a table.
pub trait TableText {
    // What it is for the table's jobs.
    ghost text_of: { List Job → List ℕ };

    // Writes it: the refusals of reading first, then 9.
    fn write(&self, table: &[u8], out: &mut [u8]) -> Result<u32, Refusal>
        ensures { (result ≡ answer_for text_of table.now out.old) × (out.new ≡ left_for text_of table.now out.old) };
}

// Prints the text of the table from standard input, or the line of its refusal. Where it fails, the buffer is as it was or holds one of these.
// A table of one byte more than the limit is told from one that is just long enough.
pub fn print_written<R: Input + Print, T: TableText>(
    rt: &R,
    text: &T,
    out: &mut [u8],
) -> io::Result<()>
    ensures printed { IfOk result (λ _. (table : List ℕ) × (out.new ≡ print_left_for T.text_of table out.old)) }
    ensures kept { (out.new ≡ out.old) ⊎ ((table : List ℕ) × (out.new ≡ print_left_for T.text_of table out.old)) }
{
    let mut input = [0u8; MAX_TEXT + 1];
    let length = read_full(&mut rt.reader(), &mut input)?;
    let answer = text.write(&input[..length], out);
    let length = ready_to_print(answer, out) as usize;
    print(rt, front(out, length))
}

#[cfg(test)]
mod tests;
