// Numbers with single commas between them, also as a line, and bytes as they are, at a place of a buffer that has room for them.
ghost use Rattle.std.specs.Prelude.{◌≡◌, ◌+◌, ◌*◌, ◌≤◌, cond, [], ◌∷◌, map, eqb, pos, length, drop};
ghost use Rattle.laws.specs.Words.{patched};
ghost use Rattle.decimal.specs.Digits.{decimal};
ghost use Rattle.texts.specs.Lines.{after_commas, lines_text};

use decimal::count::digit_count;
use decimal::unsigned::write_unsigned;
use texts::bytes::put_bytes;

// How many bytes column k takes.
fn column_length(k: usize, value: u64) -> usize
    ensures { let text = cond (eqb k 0) (decimal value) (44 ∷ decimal value) in result ≡ length text }
{
    let count = digit_count(value);
    if k == 0 {
        return count;
    }
    count + 1
}

// Writes column k, and answers the place after it.
pub(crate) fn write_column(k: usize, value: u64, out: &mut [u8], at: usize) -> usize
    requires { let text = cond (eqb k 0) (decimal value) (44 ∷ decimal value) in at + length text ≤ length out.old }
    ensures { let text = cond (eqb k 0) (decimal value) (44 ∷ decimal value) in (result ≡ at + length text) × (out.new ≡ patched out.old at text) }
{
    if k == 0 {
        return at + write_unsigned(value, &mut out[at..]);
    }
    out[at] = b',';
    let next = at + 1;
    next + write_unsigned(value, &mut out[next..])
}

// How many bytes the columns take, no more than 8 of them; a column has a comma and at most 20 digits.
pub(crate) fn columns_length(values: &[u64]) -> usize
    requires { length values.now ≤ 8 }
    ensures { let text = drop 1 (after_commas (map pos values.now)) in (result ≡ length text) × (result ≤ 21 * length values.now) }
{
    let mut sum: usize = 0;
    for (k, value) in values.iter().enumerate() {
        sum += column_length(k, *value);
    }
    sum
}

// Writes the columns, and answers the place after them.
pub(crate) fn write_columns(values: &[u64], out: &mut [u8], at: usize) -> usize
    requires { let text = drop 1 (after_commas (map pos values.now)) in at + length text ≤ length out.old }
    ensures { let text = drop 1 (after_commas (map pos values.now)) in (result ≡ at + length text) × (out.new ≡ patched out.old at text) }
{
    let mut next = at;
    for (k, value) in values.iter().enumerate() {
        next = write_column(k, *value, out, next);
    }
    next
}

// Writes bytes as they are, and answers the place after them.
pub(crate) fn write_bytes(bytes: &[u8], out: &mut [u8], at: usize) -> usize
    requires { at + length bytes.now ≤ length out.old }
    ensures { (result ≡ at + length bytes.now) × (out.new ≡ patched out.old at bytes.now) }
{
    at + put_bytes(bytes, out, at)
}

// How many bytes the columns take as a line, no more than 8 of them.
pub(crate) fn line_length(values: &[u64]) -> usize
    requires { length values.now ≤ 8 }
    ensures { let line = lines_text (map pos values.now ∷ []) in (result ≡ length line) × (result ≤ 21 * length values.now + 2) }
{
    columns_length(values) + 2
}

// Writes the columns as a line, and answers the place after it.
pub(crate) fn write_line(values: &[u64], out: &mut [u8], at: usize) -> usize
    requires { let line = lines_text (map pos values.now ∷ []) in at + length line ≤ length out.old }
    ensures { let line = lines_text (map pos values.now ∷ []) in (result ≡ at + length line) × (out.new ≡ patched out.old at line) }
{
    let after_columns = write_columns(values, out, at);
    write_bytes(b"\r\n", out, after_columns)
}
