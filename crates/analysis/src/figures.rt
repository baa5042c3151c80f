// All figures of a set at once, with one run of ITR.
ghost use Rattle.std.specs.Prelude.{◌≡◌};
ghost use Rattle.analysis.specs.Answers.{figures_of};

use crate::answer::Figures;
use crate::slack::slacks_by;
use completion::cja::cja_alone;
use completion::ert::ert_alone;
use completion::itr::itr_alone;
use jobs::refusal::Refusal;
use jobs::set::JobSet;

// The three bounds, the rounds of ITR and the slacks of all jobs.
pub fn figures(set: JobSet) -> Result<Figures, Refusal>
    ensures { result ≡ figures_of set }
{
    let answer = itr_alone(set)?;
    let itr = answer.bounds;
    let slacks = slacks_by(set, itr);
    let ert = ert_alone(set)?;
    let cja = cja_alone(set)?;
    Ok(Figures {
        ert,
        cja,
        itr,
        rounds: answer.rounds,
        slacks,
    })
}
