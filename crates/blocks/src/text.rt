// The blocks text of a table, by ITR.
ghost use Rattle.std.specs.Prelude.{◌≡◌, ◌≤◌, length};
ghost use Rattle.laws.specs.Words.{written as laws_written};
ghost use Rattle.laws.proofs.Clipped.{Put};
ghost use Rattle.jobs.specs.{Limits.max_jobs, Limits.max_chains, Jobs.chains_of, Jobs.jobs_of};
ghost use Rattle.texts.specs.Answers.{answer_to, answer_for, left_for};
ghost use Rattle.blocks.specs.Texts.{delays_text, blocks_text, max_blocks_text};

use crate::rows::put_rows;
use completion::answer::Delay;
use completion::named::itr;
use jobs::last::last_of;
use jobs::refusal::Refusal;
use jobs::set::JobSet;
use texts::bytes::put_bytes;
use texts::whole::{Text, write_whole};

// Enough for the text of every accepted set, by the theorem `blocks_fit`.
pub const MAX_BLOCKS_TEXT: usize = 24 * JobSet::MAX_JOBS * Delay::CHAINS;

// Puts as much of the text as the buffer has room for, and answers how many bytes the text takes.
fn put_text(set: JobSet, delays: [Delay; JobSet::MAX_JOBS], out: &mut [u8]) -> usize
    requires count_le_max_jobs { (set.count ≤ max_jobs) × (chains_of (jobs_of set) ≤ max_chains) }
    requires delays_len_bound { length (delays_text (jobs_of set) delays) ≤ max_blocks_text }
    ensures { Put out.old 0 (delays_text (jobs_of set) delays) out.new result }
{
    let last = last_of(set);
    let rows = put_bytes(b"chain,job,from,other,first,last\r\n", out, 0);
    put_rows(set, delays, last.chain as usize, out, rows)
}

// What delays the jobs of a set, for its text.
#[derive(Clone, Copy)]
struct DelaysText<'a> {
    set: &'a JobSet,
    delays: &'a [Delay; JobSet::MAX_JOBS],
    ghost few: { (set.now.count ≤ max_jobs) × (chains_of (jobs_of set.now) ≤ max_chains) },
    ghost short: { length (delays_text (jobs_of set.now) delays.now) ≤ max_blocks_text },
}

impl<'a> Text for DelaysText<'a> {
    ghost bytes = { λ text. delays_text (jobs_of text.set.now) text.delays.now };

    #[tactic(auto, using(laws::proofs::Clipped::put_whole))]
    fn put(self, out: &mut [u8]) -> u32 {
        put_text(*self.set, *self.delays, out) as u32
    }
}

// Writes the text.
// What its proof may use is for the edits in must-fail/ that try the text first, so that there the right length is proved and the wrong one is not.
#[tactic(auto, using(texts::proofs::TextAnswers::answer_short, texts::proofs::Trying::tried_short, texts::proofs::Trying::answer_tried, texts::proofs::Trying::written_tried))]
fn write_blocks(text: DelaysText<'_>, out: &mut [u8]) -> Result<u32, Refusal>
    ensures value { result ≡ answer_to (delays_text (jobs_of text.entry.set.now) text.entry.delays.now) out.old }
    ensures out_after { out.new ≡ laws_written (delays_text (jobs_of text.entry.set.now) text.entry.delays.now) out.old }
{
    write_whole(text, out)
}

// From the text of a table to the text of its blocks: the refusals of reading first, then 9.
pub fn blocks_text(text: &[u8], out: &mut [u8]) -> Result<u32, Refusal>
    ensures value { result ≡ answer_for blocks_text text.now out.old }
    ensures out_after { out.new ≡ left_for blocks_text text.now out.old }
{
    let set = table::reading::read(text)?;
    let named = itr(set)?;
    let text = DelaysText {
        set: &set,
        delays: &named.delays,
    };
    write_blocks(text, out)
}
