// Admission of a further chain.
ghost use Rattle.std.specs.Prelude.{◌≡◌, true, false};
ghost use Rattle.analysis.specs.Answers.{admission_of};

use crate::answer::Admission;
use crate::verdict::verdict;
use jobs::join::join;
use jobs::refusal::Refusal;
use jobs::set::JobSet;

// The set that a verdict leaves.
fn admitted(verdict: Result<bool, Refusal>, old: JobSet, joined: JobSet) -> Admission
    ensures { result ≡ record { verdict = verdict; set = elim verdict [ Ok true ↦ joined | Ok false ↦ old | Err refusal ↦ old ] } }
{
    let set = if let Ok(true) = verdict { joined } else { old };
    Admission { verdict, set }
}

// The chain joins as the highest-numbered one; the refusals of the joined records come first, then 10, then the verdict on them.
pub fn admit(old: JobSet, new: JobSet, algorithm: u64) -> Admission
    ensures { result ≡ admission_of old new algorithm }
{
    match join(old, new) {
        Err(refusal) => Admission {
            verdict: Err(refusal),
            set: old,
        },
        Ok(joined) => admitted(verdict(joined, algorithm), old, joined),
    }
}
