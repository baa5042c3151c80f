// The comparison of two recordings.
ghost use Rattle.std.specs.Prelude.{◌≡◌};
ghost use Rattle.jobs.specs.Jobs.{jobs_of};
ghost use Rattle.recorders.specs.Comparing.{compared_of};

use crate::difference::first_difference;
use crate::legal::is_legal;
use jobs::refusal::Refusal;
use jobs::set::JobSet;
use recording::reading::read_recording;

// Whether each of two recordings is legal, and the first tick at which they show different work.
#[derive(Clone, Copy)]
pub struct Compared {
    pub first: bool,
    pub second: bool,
    pub difference: Option<u64>,
}

// The refusals of the set, of the first recording and of the second; then whether each is legal, and where they differ.
pub fn compare(set: JobSet, first: &[u8], second: &[u8]) -> Result<Compared, Refusal>
    ensures { result ≡ compared_of (jobs_of set) first.now second.now }
{
    let one = read_recording(set, first)?;
    let other = read_recording(set, second)?;
    Ok(Compared {
        first: is_legal(set, one),
        second: is_legal(set, other),
        difference: first_difference(one, other),
    })
}
