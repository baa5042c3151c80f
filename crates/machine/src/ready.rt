// Which jobs are ready, from columns of their figures.
ghost use Rattle.std.specs.Prelude.{◌≡◌, ◌<◌, ◌≤◌, length};
ghost use Rattle.laws.specs.Words.{number_at};
ghost use Rattle.theory.specs.Runs.{complete, predecessor_complete};
ghost use Rattle.theory.proofs.Columns.{seen};
ghost use Rattle.machine.specs.Ticks.{all_complete, ready_in};

use crate::columns::{CHAIN, RELEASE};
use crate::state::State;
use crate::timed::TimedJobs;

impl<'a> TimedJobs<'a> {
    #[tactic(auto, unfolding(theory::specs::Runs::complete))]
    pub(crate) fn is_complete(self, at: usize, state: &State) -> bool
        requires { at < length self.times.now }
        ensures { result ≡ complete self.entry.times.now (number_at state.now.work) at }
    {
        state.work[at] == self.times[at]
    }

    pub(crate) fn is_predecessor_complete(self, at: usize, state: &State) -> bool
        requires { at < length self.times.now }
        ensures { result ≡ predecessor_complete (seen self.entry.columns.now) self.entry.times.now (number_at state.now.work) at }
    {
        if at == 0 {
            return true;
        }
        if self.figure(CHAIN, at - 1) != self.figure(CHAIN, at) {
            return true;
        }
        self.is_complete(at - 1, state)
    }

    // Whether a job is released and not complete, with its predecessor complete.
    #[tactic(auto, unfolding(theory::specs::Runs::ready))]
    pub(crate) fn is_ready(self, at: usize, state: &State) -> bool
        requires { at < length self.times.now }
        ensures { result ≡ ready_in (seen self.entry.columns.now) self.entry.times.now state.now at }
    {
        self.figure(RELEASE, at) <= state.time
            && !self.is_complete(at, state)
            && self.is_predecessor_complete(at, state)
    }

    // Whether all jobs are complete.
    pub(crate) fn are_complete(self, state: &State) -> bool
        ensures { result ≡ all_complete self.entry.times.now state.now.work (length self.entry.times.now) }
    {
        for n in 0..self.times.len() {
            if !self.is_complete(n, state) {
                return false;
            }
        }
        true
    }
}
