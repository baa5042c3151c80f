// The bounds of a set by the algorithm that is asked for.
// The two functions differ in every function that they call: one for both would take those as parameters and be no shorter.
ghost use Rattle.std.specs.Prelude.{◌≡◌};
ghost use Rattle.completion.specs.Answers.{bounds_alone};
ghost use Rattle.analysis.specs.Answers.{bounds_of};

use crate::algorithm::Algorithm;
use completion::answer::{Bounds, Itr};
use completion::cja::cja_alone;
use completion::ert::ert_alone;
use completion::itr::itr_alone;
use completion::named::{cja, ert, itr};
use jobs::check::check;
use jobs::refusal::Refusal;
use jobs::set::JobSet;

// The bounds of all jobs by 1 ERT, 2 CJA or 3 ITR and what they come from: the set's own refusals first, then 10 for another algorithm.
pub fn bounds(set: JobSet, algorithm: u64) -> Result<Bounds, Refusal>
    ensures { result ≡ bounds_of set algorithm }
{
    match Algorithm::try_from(algorithm) {
        Ok(Algorithm::Ert) => ert(set),
        Ok(Algorithm::Cja) => cja(set),
        Ok(Algorithm::Itr) => {
            let Itr { bounds, delays, .. } = itr(set)?;
            Ok(Bounds { bounds, delays })
        }
        Err(unknown) => {
            check(set)?;
            Err(unknown)
        }
    }
}

// The same bounds alone. Its cases go by match: with `?` it keeps two copies more of the set, 7 KB of stack.
pub fn bounds_alone(set: JobSet, algorithm: u64) -> Result<[u64; JobSet::MAX_JOBS], Refusal>
    ensures { result ≡ bounds_alone (bounds_of set algorithm) }
{
    match Algorithm::try_from(algorithm) {
        Ok(Algorithm::Ert) => ert_alone(set),
        Ok(Algorithm::Cja) => cja_alone(set),
        Ok(Algorithm::Itr) => match itr_alone(set) {
            Ok(answer) => Ok(answer.bounds),
            Err(refusal) => Err(refusal),
        },
        Err(other) => match check(set) {
            Ok(()) => Err(other),
            Err(refusal) => Err(refusal),
        },
    }
}
