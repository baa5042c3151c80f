// The line that a refusal prints, and how much of a buffer a program prints.
ghost use Rattle.std.specs.Prelude.{◌≡◌};
ghost use Rattle.laws.specs.Words.{written, written_length};
ghost use Rattle.texts.specs.Answers.{refused_text, print_length, print_left};

use crate::bytes::{put_bytes, put_number};
use decimal::count::digit_count;
use jobs::refusal::Refusal;

// Writes the line at the start of out and answers how many bytes it takes; where it does not fit nothing is written, and the answer is 0.
pub fn write_refused(refusal: Refusal, out: &mut [u8]) -> usize
    ensures { (result ≡ written_length (refused_text refusal) out.old) × (out.new ≡ written (refused_text refusal) out.old) }
{
    let number = refusal.number() as u64;
    if out.len() < 10 + digit_count(number) {
        return 0;
    }
    let after_word = put_bytes(b"refused,", out, 0);
    let after_number = after_word + put_number(number, out, after_word);
    after_number + put_bytes(b"\r\n", out, after_number)
}

// How many bytes of the buffer a program prints: the text in it, or the line of a refusal, which is written first.
pub fn ready_to_print(answer: Result<u32, Refusal>, out: &mut [u8]) -> u32
    ensures { (result ≡ print_length answer out.old) × (out.new ≡ print_left answer out.old) }
{
    match answer {
        Ok(bytes) => bytes,
        Err(refusal) => write_refused(refusal, out) as u32,
    }
}
