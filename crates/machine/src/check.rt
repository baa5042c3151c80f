// The check of a state, refusal 11, after those of the set and its running times.
ghost use Rattle.std.specs.Prelude.{◌≡◌, ◌<◌, ◌≤◌, length};
ghost use Rattle.laws.specs.Words.{number_at, every_below};
ghost use Rattle.theory.proofs.Columns.{seen, shown};
ghost use Rattle.machine.specs.Ticks.{work_possible, completion_possible, possible, state_check};

use crate::columns::RELEASE;
use crate::state::State;
use crate::timed::TimedJobs;
use jobs::refusal::Refusal;

impl<'a> TimedJobs<'a> {
    // Whether the work of one job is possible at this time.
    #[tactic(auto, unfolding(crate::specs::Ticks::work_possible))]
    fn is_work_possible(self, at: usize, state: &State) -> bool
        requires { at < length self.times.now }
        ensures { result ≡ work_possible (seen self.entry.columns.now) self.entry.times.now (number_at state.now.work) state.now.time at }
    {
        state.work[at] <= self.times[at]
            && (state.work[at] == 0
                || (self.is_predecessor_complete(at, state)
                    && self.figure(RELEASE, at) < state.time))
    }

    // Whether the completion of one job is possible at this time.
    #[tactic(auto, unfolding(crate::specs::Ticks::completion_possible))]
    fn is_completion_possible(self, at: usize, state: &State) -> bool
        requires { at < length self.times.now }
        ensures { result ≡ completion_possible (seen self.entry.columns.now) self.entry.times.now (number_at state.now.work) (number_at state.now.completions) state.now.time at }
    {
        !self.is_complete(at, state)
            || (self.figure(RELEASE, at) < state.completions[at]
                && state.completions[at] <= state.time)
    }

    // Whether the work and the completion of each job are possible.
    fn are_possible(self, state: &State) -> bool
        ensures { result ≡ every_below (length self.entry.times.now) (possible (seen self.entry.columns.now) self.entry.times.now state.now) }
    {
        for n in 0..self.times.len() {
            if !self.is_work_possible(n, state) {
                return false;
            }
            if !self.is_completion_possible(n, state) {
                return false;
            }
        }
        true
    }

    // Refusal 11: a state that cannot be.
    pub(crate) fn check_state(self, state: &State) -> Result<(), Refusal>
        ensures { result ≡ state_check (shown (length self.entry.times.now) self.entry.columns.now) self.entry.times.now state.now }
    {
        if State::LAST_TIME < state.time {
            return Err(Refusal::ImpossibleState);
        }
        if !self.are_possible(state) {
            return Err(Refusal::ImpossibleState);
        }
        Ok(())
    }
}
