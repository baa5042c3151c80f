// Reading a number from the rest of a text.
ghost use Rattle.std.specs.Prelude.{◌≡◌, cond, true, false, eqb};
ghost use Rattle.decimal.specs.Fields.{max_digits, number, field_of};

// The most digits a field's number has.
const MAX_DIGITS: usize = 10;

// A number of 1 to 10 digits, with no leading zero except in 0 itself, and how many bytes it takes.
#[derive(Clone, Copy)]
pub struct Field {
    pub value: u64,
    pub length: usize,
}

// The field at the start of rest, where a number stands there.
pub fn read_field(rest: &[u8]) -> Option<Field>
    ensures { result ≡ field_of rest.now }
{
    let mut value: u64 = 0;
    for (length, byte) in rest.iter().enumerate() {
        if !byte.is_ascii_digit() {
            return after_digits(value, length);
        }
        if ends_number(value, length) {
            return None;
        }
        value = value * 10 + (*byte - b'0') as u64;
    }
    after_digits(value, rest.len())
}

// Whether no further digit may follow length digits of this value: they are the most there can be, or a zero.
fn ends_number(value: u64, length: usize) -> bool
    ensures { result ≡ cond (eqb length max_digits) true (cond (eqb length 0) false (eqb value 0)) }
{
    if length == MAX_DIGITS {
        return true;
    }
    if length == 0 {
        return false;
    }
    value == 0
}

// The answer where length digits of this value were read and no more follow.
fn after_digits(value: u64, length: usize) -> Option<Field>
    ensures { result ≡ cond (eqb length 0) None (number value length) }
{
    if length == 0 {
        return None;
    }
    Some(Field { value, length })
}
