// What a putter puts in a lent buffer that has room for it, where its type says no text.
ghost use Rattle.std.specs.Prelude.{◌≡◌, List, ℕ};
ghost use Rattle.laws.specs.Words.{written};
ghost use Rattle.texts.specs.Answers.{answer_to, PutsIfRoom, PutsAlways};

use jobs::refusal::Refusal;

// What puts a text at the start of a buffer as far as it has room, the same each time or not.
pub trait Putter {
    // Whether it may answer this length with that buffer, and leave the buffer so.
    ghost puts: { Self → List ℕ → ℕ → List ℕ → Type 0 };

    // Puts it, and answers how many bytes it takes.
    fn put(&self, out: &mut [u8]) -> u32
        ensures { puts self.now out.old result out.new };
}

// Writes what is put, if there is room for what is answered in a buffer of no bytes, so that a short buffer stays as it was.
// Where the same text is put each time it stands whole or not at all.
pub fn write_whole_by<P: Putter>(putter: &P, out: &mut [u8]) -> Result<u32, Refusal>
    ensures each { PutsIfRoom (P.puts putter.now) out.old result out.new }
    ensures whole { (text : List ℕ) → PutsAlways (P.puts putter.now) text → (result ≡ answer_to text out.old) × (out.new ≡ written text out.old) }
{
    let length = putter.put(&mut out[..0]);
    if out.len() < length as usize {
        return Err(Refusal::ShortBuffer);
    }
    putter.put(out);
    Ok(length)
}
