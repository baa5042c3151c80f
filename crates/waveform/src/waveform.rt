// The waveform of a run, into a lent buffer.
ghost use Rattle.std.specs.Prelude.{◌≡◌};
ghost use Rattle.laws.specs.Words.{written as laws_written};
ghost use Rattle.jobs.specs.Jobs.{jobs_of};
ghost use Rattle.texts.specs.Answers.{answer_to, answer_for, left_for};
ghost use Rattle.dumps.specs.Dumps.{dump_of, most_waveform};
ghost use Rattle.dumps.proofs.Entries.{spans_of, Drawn};
ghost use Rattle.waveform.specs.Answers.{waveform_answer, waveform_left};

use crate::dump::put_dump;
use jobs::most::most_times;
use jobs::refusal::Refusal;
use jobs::set::JobSet;
use machine::trace::{MAX_NUMBERS, trace};
use texts::whole::{Text, write_whole};

// Enough for the waveform of every accepted set, by the theorem `waveform_fits`.
pub const MAX_WAVEFORM: usize = 128 * JobSet::MAX_JOBS;

// The first entries of a trace, for their dump.
#[derive(Clone, Copy)]
struct Dump<'a> {
    set: &'a JobSet,
    numbers: &'a [u64],
    entries: usize,
    ghost drawn: { Drawn (jobs_of set.now) numbers.now entries },
}

impl<'a> Text for Dump<'a> {
    ghost bytes = { λ dump. let js = jobs_of dump.set.now in dump_of js (spans_of js dump.numbers.now dump.entries) };

    #[tactic(auto, using(laws::proofs::Clipped::put_whole))]
    fn put(self, out: &mut [u8]) -> u32 {
        put_dump(*self.set, self.numbers, self.entries, out) as u32
    }
}

// Writes the dump.
// What its proof may use is for the edits in must-fail/ that try the text first, so that there the right length is proved and the wrong one is not.
#[tactic(auto, using(texts::proofs::TextAnswers::answer_short, texts::proofs::Trying::tried_short, texts::proofs::Trying::answer_tried, texts::proofs::Trying::written_tried))]
fn write_dump(dump: Dump<'_>, out: &mut [u8]) -> Result<u32, Refusal>
    ensures value { let js = jobs_of dump.entry.set.now in result ≡ answer_to (dump_of js (spans_of js dump.entry.numbers.now dump.entry.entries)) out.old }
    ensures out_after { let js = jobs_of dump.entry.set.now in out.new ≡ laws_written (dump_of js (spans_of js dump.entry.numbers.now dump.entry.entries)) out.old }
{
    write_whole(dump, out)
}

// The waveform of a set's run with these running times: the refusals of the set first, then 8, then 9.
pub fn write_waveform(set: JobSet, times: &[u64], out: &mut [u8]) -> Result<u32, Refusal>
    ensures value { result ≡ waveform_answer (jobs_of set) times.now out.old }
    ensures out_after { out.new ≡ waveform_left (jobs_of set) times.now out.old }
{
    let mut numbers = [0u64; MAX_NUMBERS];
    let traced = trace(set, times, &mut numbers)?;
    let dump = Dump {
        set: &set,
        numbers: &numbers,
        entries: traced.entries,
    };
    write_dump(dump, out)
}

// From the text of a table to the waveform of the run with all most times: the refusals of reading first, then 9.
pub fn waveform_text(text: &[u8], out: &mut [u8]) -> Result<u32, Refusal>
    ensures { (result ≡ answer_for most_waveform text.now out.old) × (out.new ≡ left_for most_waveform text.now out.old) }
{
    let set = table::reading::read(text)?;
    let most = most_times(set);
    write_waveform(set, &most[..set.count], out)
}
