// The lines of a dump, each with its LF, at a place of a buffer, as far as it has room; each answers the place after its line.
ghost use Rattle.std.specs.Prelude.{◌≡◌, ◌+◌, ◌≤◌, cond, suc, [], ◌∷◌, length};
ghost use Rattle.laws.proofs.Clipped.{Put};
ghost use Rattle.jobs.specs.Limits.{max_jobs};
ghost use Rattle.dumps.specs.{Identifiers.identifier_of, Dumps.lines_text, Dumps.name_of, Dumps.declares, Dumps.time_line, Dumps.value_line, Claims.max_waveform};

use texts::bytes::{put_bytes, put_number};

// The identifier of the wire of the job at a place.
fn put_identifier(u: usize, out: &mut [u8], at: usize) -> usize
    requires { (u ≤ max_jobs) × (at + length (identifier_of (suc u)) ≤ max_waveform) }
    ensures { Put out.old at (identifier_of (suc u)) out.new result }
{
    let identifier = [(33 + u) as u8];
    at + put_bytes(&identifier, out, at)
}

// A time.
pub(crate) fn put_time(t: u64, out: &mut [u8], at: usize) -> usize
    requires { at + length (lines_text (time_line t ∷ [])) ≤ max_waveform }
    ensures { Put out.old at (lines_text (time_line t ∷ [])) out.new result }
{
    let digits = at + put_bytes(b"#", out, at);
    let end = digits + put_number(t, out, digits);
    end + put_bytes(b"\n", out, end)
}

// The byte of a value.
fn value_byte(value: bool) -> u8
    ensures { result ≡ cond value 49 48 }
{
    b'0' + value as u8
}

// The value of the wire of the job at a place.
pub(crate) fn put_value(value: bool, u: usize, out: &mut [u8], at: usize) -> usize
    requires { (u ≤ max_jobs) × (at + length (lines_text (value_line value u ∷ [])) ≤ max_waveform) }
    ensures { Put out.old at (lines_text (value_line value u ∷ [])) out.new result }
{
    let byte = [value_byte(value)];
    let identifier = at + put_bytes(&byte, out, at);
    let end = put_identifier(u, out, identifier);
    end + put_bytes(b"\n", out, end)
}

// The name of the wire of a chain and job.
fn put_name(chain: u64, number: u64, out: &mut [u8], at: usize) -> usize
    requires { at + length (name_of chain number) ≤ max_waveform }
    ensures { Put out.old at (name_of chain number) out.new result }
{
    let first = at + put_bytes(b"c", out, at);
    let letter = first + put_number(chain, out, first);
    let second = letter + put_bytes(b"j", out, letter);
    second + put_number(number, out, second)
}

// The declaration of the wire of the job at a place.
pub(crate) fn put_wire(u: usize, chain: u64, number: u64, out: &mut [u8], at: usize) -> usize
    requires { (u ≤ max_jobs) × (at + length (lines_text (declares u chain number ∷ [])) ≤ max_waveform) }
    ensures { Put out.old at (lines_text (declares u chain number ∷ [])) out.new result }
{
    let identifier = at + put_bytes(b"$var wire 1 ", out, at);
    let space = put_identifier(u, out, identifier);
    let name = space + put_bytes(b" ", out, space);
    let end = put_name(chain, number, out, name);
    end + put_bytes(b" $end\n", out, end)
}
