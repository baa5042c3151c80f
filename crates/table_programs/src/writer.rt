// What a writer makes of the table from standard input is printed, where its type says no text.
ghost use Rattle.std.specs.Prelude.{◌≡◌, ◌⊎◌, List, ℕ, Result, IfOk};
ghost use Rattle.jobs.specs.declared.refusal.Refusal.{Refusal};
ghost use Rattle.texts.specs.Answers.{PrintsWritten};

use jobs::refusal::Refusal;
use std::io;
use streams::{front, print, read_full};
use table::reading::MAX_TEXT;
use texts::refused::ready_to_print;

// What writes something of a table in a buffer, and is asked at most once.
pub trait TableWriter: Drop {
    // Whether it may answer this of that table with that buffer, and leave the buffer so.
    ghost writes: { Self → List ℕ → List ℕ → Result ℕ Refusal → List ℕ → Type 0 };

    // Writes it at the start of the buffer, and answers how many bytes it takes, or a refusal.
    fn write(self, table: &[u8], out: &mut [u8]) -> Result<u32, Refusal>
        ensures { writes self table.now out.old result out.new };
}

// Prints what is written of the text from standard input, or the line of the refusal. Where it fails, the buffer is as it was or holds one of these.
// A text of one byte more than the limit is told from one that is just long enough.
pub fn print_written_by<R: Input + Print, W: TableWriter>(
    rt: &R,
    writer: W,
    out: &mut [u8],
) -> io::Result<()>
    ensures printed { IfOk result (λ _. PrintsWritten (W.writes writer) out.old out.new) }
    ensures kept { (out.new ≡ out.old) ⊎ PrintsWritten (W.writes writer) out.old out.new }
{
    let mut input = [0u8; MAX_TEXT + 1];
    let length = read_full(&mut rt.reader(), &mut input)?;
    let answer = writer.write(&input[..length], out);
    let length = ready_to_print(answer, out) as usize;
    print(rt, front(out, length))
}
