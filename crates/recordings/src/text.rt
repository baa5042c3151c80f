// The text of a comparison of two recordings.
ghost use Rattle.std.specs.Prelude.{◌≡◌};
ghost use Rattle.laws.specs.Words.{written as laws_written};
ghost use Rattle.laws.proofs.Clipped.{Put};
ghost use Rattle.texts.specs.Answers.{answer_to};
ghost use Rattle.recordings.specs.Texts.{compared_text, comparison_answer, comparison_left};

use crate::line::{put_difference, put_legal};
use jobs::refusal::Refusal;
use recorders::compare::{Compared, compare};
use table::reading::read;
use texts::whole::{Text, write_whole};

// Enough for the text of every comparison, by the theorem `compared_fits`.
pub const MAX_COMPARED_TEXT: usize = 64;

// Puts as much of the text as the buffer has room for, and answers how many bytes the text takes.
fn put_text(compared: Compared, out: &mut [u8]) -> usize
    ensures { Put out.old 0 (compared_text compared) out.new result }
{
    let second = put_legal(b"first", compared.first, out, 0);
    let difference = put_legal(b"second", compared.second, out, second);
    put_difference(compared.difference, out, difference)
}

// A comparison, for its text.
#[derive(Clone, Copy)]
struct ComparedText(Compared);

impl Text for ComparedText {
    ghost bytes = { λ text. compared_text text.0 };

    #[tactic(auto, using(laws::proofs::Clipped::put_whole))]
    fn put(self, out: &mut [u8]) -> u32 {
        put_text(self.0, out) as u32
    }
}

// Writes the text.
// What its proof may use is for the edits in must-fail/ that try the text first, so that there the right length is proved and the wrong one is not.
#[tactic(auto, using(texts::proofs::TextAnswers::answer_short, texts::proofs::Trying::tried_short, texts::proofs::TextAnswers::answer_fits, texts::proofs::Trying::tried_fits))]
fn write_compared(text: ComparedText, out: &mut [u8]) -> Result<u32, Refusal>
    ensures value { result ≡ answer_to (compared_text text.0) out.old }
    ensures out_after { out.new ≡ laws_written (compared_text text.0) out.old }
{
    write_whole(text, out)
}

// From the texts of a table and of two recordings to the text of their comparison: the refusals of the table, of the recordings, then 9.
pub fn recordings_text(
    table: &[u8],
    first: &[u8],
    second: &[u8],
    out: &mut [u8],
) -> Result<u32, Refusal>
    ensures value { result ≡ comparison_answer table.now first.now second.now out.old }
    ensures out_after { out.new ≡ comparison_left table.now first.now second.now out.old }
{
    let set = read(table)?;
    let compared = compare(set, first, second)?;
    write_compared(ComparedText(compared), out)
}
