// Tables kept as files, read by the programs that run cases.
// What a file holds no definition says: each promise is of some text.
#![tactic(auto)]

ghost use Rattle.std.specs.Prelude.{◌≡◌, ℕ, List, [], IfOk};
ghost use Rattle.std.specs.Result.{result_unwrap_or};
ghost use Rattle.jobs.specs.Jobs.{set_of};
ghost use Rattle.table.specs.Tables.{reading_of};

use jobs::refusal::Refusal;
use jobs::set::JobSet;
use std::io;
use std::rt::Files;
use table::reading::MAX_TEXT;

// What reading a file comes to; one that is not there is an empty text. A buffer of one byte more than the limit tells a text that is too long.
pub fn read_file<R: Files>(rt: &R, name: &[u8]) -> io::Result<Result<JobSet, Refusal>>
    ensures { IfOk result (λ reading. (text : List ℕ) × (reading ≡ reading_of text)) }
{
    let mut text = [0u8; MAX_TEXT + 1];
    let length = streams::read_file(rt, name, &mut text)?;
    Ok(table::reading::read(&text[..length]))
}

// The set of a table, or the empty set.
pub fn set_of<R: Files>(rt: &R, name: &[u8]) -> io::Result<JobSet>
    ensures { IfOk result (λ set. (text : List ℕ) × (set ≡ result_unwrap_or (reading_of text) (set_of []))) }
{
    let reading = read_file(rt, name)?;
    Ok(reading.unwrap_or(JobSet::empty()))
}
