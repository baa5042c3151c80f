// A line of the text at a place of a buffer, as far as it has room; each function answers the place after what it puts.
ghost use Rattle.std.specs.Prelude.{◌+◌, ◌≤◌, length};
ghost use Rattle.laws.proofs.Clipped.{Put};
ghost use Rattle.recordings.specs.Texts.{legal_line, difference_line, max_compared_text};

use texts::bytes::{put_bytes, put_number};

// Whether the recording of a name is legal.
pub(crate) fn put_legal(name: &[u8], legal: bool, out: &mut [u8], at: usize) -> usize
    requires { at + length (legal_line name.now legal) ≤ max_compared_text }
    ensures { Put out.old at (legal_line name.now legal) out.new result }
{
    let comma = at + put_bytes(name, out, at);
    if legal {
        return comma + put_bytes(b",legal\r\n", out, comma);
    }
    comma + put_bytes(b",illegal\r\n", out, comma)
}

// Where the recordings differ.
pub(crate) fn put_difference(difference: Option<u64>, out: &mut [u8], at: usize) -> usize
    requires { at + length (difference_line difference) ≤ max_compared_text }
    ensures { Put out.old at (difference_line difference) out.new result }
{
    let word = at + put_bytes(b"difference,", out, at);
    match difference {
        Some(tick) => {
            let end = word + put_number(tick, out, word);
            end + put_bytes(b"\r\n", out, end)
        }
        None => word + put_bytes(b"none\r\n", out, word),
    }
}
