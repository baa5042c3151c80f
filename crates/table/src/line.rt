// One line of a table after the first: fields with single commas.
ghost use Rattle.std.specs.Prelude.{◌≡◌, ◌≤◌, ◌<◌, ◌+◌, cond, eqb, drop, get_or};
ghost use Rattle.laws.specs.Lines.{first_line, line_length};
ghost use Rattle.decimal.specs.Fields.{number, field_of};
ghost use Rattle.table.specs.Lines.{max_columns, row_of, line_with, line_of, end_of};

use decimal::field::{Field, read_field};
use jobs::refusal::Refusal;

// The most columns that a line has.
pub const MAX_COLUMNS: usize = 7;

// The values of a line's fields, and how many bytes the line takes with its end.
#[derive(Clone, Copy)]
pub struct Line {
    pub values: [u64; MAX_COLUMNS],
    pub length: usize,
}

// The field of column k at the start of rest, with the comma before it, which the first column lacks.
fn read_column(rest: &[u8], k: usize) -> Option<Field>
    ensures { let bytes = rest.now in result ≡ cond (eqb k 0) (field_of bytes) (cond (eqb (get_or bytes 0 0) 44) (elim (field_of (drop 1 bytes)) [ Some field ↦ number field.value (field.length + 1) | None ↦ None ]) None) }
{
    if k == 0 {
        return read_field(rest);
    }
    if rest.is_empty() {
        return None;
    }
    if rest[0] != b',' {
        return None;
    }
    let field = read_field(&rest[1..])?;
    Some(Field {
        value: field.value,
        length: field.length + 1,
    })
}

// Whether the first line of rest is empty, which it is at the end of the text and before a CR LF, and how many bytes its end takes.
pub(crate) fn read_end(rest: &[u8]) -> Option<usize>
    ensures { result ≡ end_of rest.now }
{
    if rest.is_empty() {
        return Some(0);
    }
    if rest.starts_with(b"\r\n") {
        return Some(2);
    }
    None
}

// The first line of rest, where it is so many fields; each is read from where the last one ended.
fn read_fields(rest: &[u8], columns: usize) -> Result<Line, Refusal>
    requires { (0 < columns) × (columns ≤ max_columns) }
    ensures { let bytes = rest.now in result ≡ line_with (row_of columns (first_line bytes)) (line_length bytes) }
{
    let mut values = [0u64; MAX_COLUMNS];
    let mut at: usize = 0;
    for k in 0..columns {
        let Some(field) = read_column(&rest[at..], k) else {
            return Err(Refusal::MalformedLine);
        };
        values[k] = field.value;
        at += field.length;
    }
    let Some(length) = read_end(&rest[at..]) else {
        return Err(Refusal::MalformedLine);
    };
    Ok(Line {
        values,
        length: at + length,
    })
}

// The first line of rest, where it is so many fields, of which a line has from 1 to MAX_COLUMNS.
pub fn read_line(rest: &[u8], columns: usize) -> Result<Line, Refusal>
    ensures { result ≡ line_of columns rest.now }
{
    if columns == 0 {
        return Err(Refusal::MalformedLine);
    }
    if MAX_COLUMNS < columns {
        return Err(Refusal::MalformedLine);
    }
    read_fields(rest, columns)
}
