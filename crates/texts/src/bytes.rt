// Bytes and numbers at a place of a buffer that may have no room for all of them.
ghost use Rattle.std.specs.Prelude.{◌≡◌, length};
ghost use Rattle.laws.specs.Words.{clipped};
ghost use Rattle.decimal.specs.Digits.{decimal};

use decimal::unsigned::write_unsigned;

// Writes as much of bytes from the place `at` on as the buffer has room for, and answers how many bytes there are.
pub fn put_bytes(bytes: &[u8], out: &mut [u8], at: usize) -> usize
    ensures { (result ≡ length bytes.now) × (out.new ≡ clipped out.old at bytes.now) }
{
    let count = bytes.len().min(out.len().saturating_sub(at));
    // The texts are a few bytes each, for which a copy by the library takes longer.
    for i in 0..count {
        out[at + i] = bytes[i];
    }
    bytes.len()
}

// The same of the digits of a number, of which there are at most 20.
pub fn put_number(value: u64, out: &mut [u8], at: usize) -> usize
    ensures { (result ≡ length (decimal value)) × (out.new ≡ clipped out.old at (decimal value)) }
{
    let mut digits = [0u8; 20];
    let count = write_unsigned(value, &mut digits);
    put_bytes(&digits[..count], out, at)
}
