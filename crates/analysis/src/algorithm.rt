// The algorithms for bounds.
ghost use Rattle.analysis.specs.Algorithms.{Chooses};

use jobs::refusal::Refusal;

// The number that C knows each by is 1, 2 and 3; the functions for a number take it as it comes, since they promise number 10 of every other.
#[derive(Clone, Copy)]
pub enum Algorithm {
    Ert,
    Cja,
    Itr,
}

impl TryFrom<u64> for Algorithm {
    type Error = Refusal;

    ghost try_from_gives = { Chooses };

    fn try_from(number: u64) -> Result<Self, Refusal> {
        match number {
            1 => Ok(Algorithm::Ert),
            2 => Ok(Algorithm::Cja),
            3 => Ok(Algorithm::Itr),
            _ => Err(Refusal::UnknownAlgorithm),
        }
    }
}
