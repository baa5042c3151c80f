// Numbers written one after another into lent memory.
ghost use Rattle.std.specs.Prelude.{◌≡◌, ◌+◌, ◌≤◌, length};
ghost use Rattle.laws.specs.Words.{patched, written};
ghost use Rattle.numbers.specs.Numbers.{room_check};

use jobs::refusal::Refusal;

// Writes the numbers at a place of memory that has room for them, and answers the place after them.
pub(crate) fn put_at(numbers: &[u64], out: &mut [u64], at: usize) -> usize
    requires { at + length numbers.now ≤ length out.old }
    ensures { (result ≡ at + length numbers.now) × (out.new ≡ patched out.old at numbers.now) }
{
    let end = at + numbers.len();
    out[at..end].copy_from_slice(numbers);
    end
}

// Writes the numbers at the start of out, or refuses with 9 where they do not fit and writes nothing.
pub fn put(numbers: &[u64], out: &mut [u64]) -> Result<(), Refusal>
    ensures { (result ≡ room_check (length numbers.now) out.old) × (out.new ≡ written numbers.now out.old) }
{
    if out.len() < numbers.len() {
        return Err(Refusal::ShortBuffer);
    }
    put_at(numbers, out, 0);
    Ok(())
}
