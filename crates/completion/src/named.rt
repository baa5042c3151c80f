// The bounds of a set with what they come from: the bounds alone, and a pass of its own that names.
// The three share the two lines that lay out the set, and differ in the pass that names: one function that took that as a closure would be no plainer.
ghost use Rattle.std.specs.Prelude.{◌≡◌};
ghost use Rattle.completion.specs.Answers.{ert_of, cja_of, itr_of};

use crate::answer::{Bounds, Itr};
use crate::cja::cja_alone;
use crate::delay::{ert_delays, numbers_of, round_delays};
use crate::ert::ert_alone;
use crate::itr::itr_alone;
use crate::table::Table;
use jobs::refusal::Refusal;
use jobs::set::JobSet;

// The ERT bounds of all jobs.
pub fn ert(set: JobSet) -> Result<Bounds, Refusal>
    ensures { result ≡ ert_of set }
{
    let bounds = ert_alone(set)?;
    let table = Table::of(set);
    let numbers = numbers_of(set);
    Ok(Bounds {
        bounds,
        delays: ert_delays(&table, &numbers),
    })
}

// The CJA bounds of all jobs: those of a round after bounds so late that each job counts.
pub fn cja(set: JobSet) -> Result<Bounds, Refusal>
    ensures { result ≡ cja_of set }
{
    let bounds = cja_alone(set)?;
    let table = Table::of(set);
    let numbers = numbers_of(set);
    let late = [Bounds::LIMIT; JobSet::MAX_JOBS];
    Ok(Bounds {
        bounds,
        delays: round_delays(&table, &late, &numbers, &bounds),
    })
}

// The ITR bounds of all jobs and the number of rounds: those of the last round, whose previous bounds are the bounds.
pub fn itr(set: JobSet) -> Result<Itr, Refusal>
    ensures { result ≡ itr_of set }
{
    let alone = itr_alone(set)?;
    let table = Table::of(set);
    let numbers = numbers_of(set);
    let delays = round_delays(&table, &alone.bounds, &numbers, &alone.bounds);
    Ok(Itr {
        bounds: alone.bounds,
        rounds: alone.rounds,
        delays,
    })
}
