// Writing a number without a sign.
ghost use Rattle.std.specs.Prelude.{◌≡◌, ◌++◌, ◌≤◌, length, drop};
ghost use Rattle.laws.specs.Words.{written, written_length};
ghost use Rattle.laws.proofs.Digits.{last_digits};
ghost use Rattle.decimal.specs.Digits.{decimal};

use crate::count::digit_count;

// Writes the digits of value at the start of rest and answers how many there are.
// Where they do not fit nothing is written, and the answer is 0: the promise, by written_length, says that number, so that it is no Option.
pub fn write_unsigned(value: u64, rest: &mut [u8]) -> usize
    ensures { (result ≡ written_length (decimal value) rest.old) × (rest.new ≡ written (decimal value) rest.old) }
{
    let count = digit_count(value);
    if rest.len() < count {
        return 0;
    }
    put_digits(value, count, rest);
    count
}

// Puts the last digits of value, count of them, at the start of rest, the last one first.
fn put_digits(value: u64, count: usize, rest: &mut [u8])
    requires { count ≤ length rest.old }
    ensures { rest.new ≡ last_digits count value ++ drop count rest.old }
{
    let mut left = value;
    for place in (0..count).rev() {
        rest[place] = b'0' + (left % 10) as u8;
        left /= 10;
    }
}
