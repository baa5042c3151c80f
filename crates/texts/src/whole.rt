// A text in a lent buffer, whole or not at all.
ghost use Rattle.std.specs.Prelude.{◌≡◌, List, ℕ};
ghost use Rattle.laws.specs.Words.{written};
ghost use Rattle.texts.specs.Answers.{answer_to, Puts};

use jobs::refusal::Refusal;

// A text that can be put at the start of a buffer as far as it has room.
pub trait Text: Copy {
    // Its bytes.
    ghost bytes: { Self → List ℕ };

    // Puts it, and answers how many bytes it takes.
    fn put(self, out: &mut [u8]) -> u32
        ensures { Puts (bytes self) out.old result out.new };
}

// Writes the text; its length is what it takes in a buffer of no bytes, so that a short buffer stays as it was.
pub fn write_whole<T: Text>(text: T, out: &mut [u8]) -> Result<u32, Refusal>
    ensures { (result ≡ answer_to (T.bytes text) out.old) × (out.new ≡ written (T.bytes text) out.old) }
{
    let length = text.put(&mut out[..0]);
    if out.len() < length as usize {
        return Err(Refusal::ShortBuffer);
    }
    text.put(out);
    Ok(length)
}
