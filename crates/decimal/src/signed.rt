// Writing a number with its sign.
ghost use Rattle.std.specs.Prelude.{◌≡◌, length, pos, nat_abs};
ghost use Rattle.laws.specs.Words.{written, written_length};
ghost use Rattle.std.specs.Int.Signed.{lt_z};
ghost use Rattle.decimal.specs.Digits.{signed};

use crate::count::digit_count;
use crate::unsigned::write_unsigned;

// Writes value at the start of rest, after a minus sign where it is below zero, and answers how many bytes that takes.
// Where they do not fit nothing is written, and the answer is 0, as the promise says.
pub fn write_signed(value: i64, rest: &mut [u8]) -> usize
    ensures { (result ≡ written_length (signed value) rest.old) × (rest.new ≡ written (signed value) rest.old) }
{
    let size = magnitude(value);
    if is_negative(value) {
        if rest.len() == 0 {
            return 0;
        }
        let count = write_unsigned(size, &mut rest[1..]);
        if count == 0 {
            return 0;
        }
        rest[0] = b'-';
        return count + 1;
    }
    write_unsigned(size, rest)
}

// How many bytes write_signed needs for value.
pub fn signed_length(value: i64) -> usize
    ensures { result ≡ length (signed value) }
{
    let count = digit_count(magnitude(value));
    if is_negative(value) {
        return count + 1;
    }
    count
}

// Whether value is below zero.
fn is_negative(value: i64) -> bool
    ensures { result ≡ lt_z value (pos 0) }
{
    value < 0
}

// The value without its sign. That of the least i64 is more than an i64 holds, so one less is worked out first.
fn magnitude(value: i64) -> u64
    ensures { result ≡ nat_abs value }
{
    if is_negative(value) {
        let less = 0 - (value + 1);
        return less as u64 + 1;
    }
    value as u64
}
