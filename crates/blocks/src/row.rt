// A row of the text at a place of a buffer, as far as it has room; each function answers the place after what it puts.
ghost use Rattle.std.specs.Prelude.{◌+◌, ◌≤◌, [], ◌∷◌, ◌++◌, length};
ghost use Rattle.laws.specs.Words.{ascii};
ghost use Rattle.laws.proofs.Clipped.{Put};
ghost use Rattle.decimal.specs.Digits.{decimal};
ghost use Rattle.texts.specs.Lines.{lines_text};
ghost use Rattle.blocks.specs.Texts.{row_numbers, max_blocks_text};

use completion::answer::Block;
use jobs::job::Job;
use texts::bytes::{put_bytes, put_number};

// Three numbers with commas between them.
fn put_three(first: u64, second: u64, third: u64, out: &mut [u8], at: usize) -> usize
    requires { let text = decimal first ++ ascii "," ++ decimal second ++ ascii "," ++ decimal third in at + length text ≤ max_blocks_text }
    ensures { let text = decimal first ++ ascii "," ++ decimal second ++ ascii "," ++ decimal third in Put out.old at text out.new result }
{
    let comma = at + put_number(first, out, at);
    let middle = comma + put_bytes(b",", out, comma);
    let comma_again = middle + put_number(second, out, middle);
    let end = comma_again + put_bytes(b",", out, comma_again);
    end + put_number(third, out, end)
}

// The row of a job, the number of the job from which its sum begins, another chain and the block of that.
pub(crate) fn put_row(
    job: Job,
    from: u16,
    other: u64,
    block: Block,
    out: &mut [u8],
    at: usize,
) -> usize
    requires { at + length (lines_text (row_numbers job from other block ∷ [])) ≤ max_blocks_text }
    ensures { Put out.old at (lines_text (row_numbers job from other block ∷ [])) out.new result }
{
    let comma = put_three(job.chain, job.job, from as u64, out, at);
    let second = comma + put_bytes(b",", out, comma);
    let end = put_three(other, block.first as u64, block.last as u64, out, second);
    end + put_bytes(b"\r\n", out, end)
}
