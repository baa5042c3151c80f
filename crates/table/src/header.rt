// The first line of a text, where it is a header.
ghost use Rattle.std.specs.Prelude.{◌≡◌};
ghost use Rattle.table.specs.Lines.{end_behind};

use crate::line::read_end;

// The header of a table, without the end of its line.
pub const HEADER: [u8; 46] = *b"chain,job,release,priority,least,most,deadline";

// Whether a text starts with a header and the line ends behind it, and how many bytes the line takes with its end.
pub fn read_header(text: &[u8], header: &[u8]) -> Option<usize>
    ensures { result ≡ end_behind header.now text.now }
{
    let behind = text.strip_prefix(header)?;
    let length = read_end(behind)?;
    Some(header.len() + length)
}
