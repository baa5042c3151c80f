// Legs: from one release or completion to the next, every tick of a run does the same.
ghost use Rattle.std.specs.Prelude.{ℕ, ◌≡◌, ◌<◌, ◌≤◌, min, cond, ltb, length};
ghost use Rattle.laws.specs.Words.{number_at};
ghost use Rattle.theory.proofs.{Columns.seen, NextRelease.next_release};
ghost use Rattle.machine.specs.{Ticks.last_time, Ticks.best_up_to, Legs.leg_of};

use crate::columns::RELEASE;
use crate::state::State;
use crate::timed::TimedJobs;

// Which job runs, if one does, and for how many ticks.
#[derive(Clone, Copy)]
pub(crate) struct Leg {
    pub at: Option<usize>,
    pub ticks: u64,
}

// The earlier of a time and a release, where that is still to come.
fn sooner(next: u64, release: u64, time: u64) -> u64
    ensures { result ≡ cond (ltb time release) (min next release) next }
{
    if release <= time {
        return next;
    }
    next.min(release)
}

impl<'a> TimedJobs<'a> {
    // The first release that is still to come.
    pub(crate) fn next_release(self, time: u64) -> u64
        ensures { result ≡ next_release last_time (seen self.entry.columns.now).earliest time (length self.entry.times.now) }
    {
        let mut next = State::LAST_TIME;
        for n in 0..self.times.len() {
            next = sooner(next, self.figure(RELEASE, n), time);
        }
        next
    }

    // The same at a later time, where the one before is known: only a release that has come is looked for anew.
    pub(crate) fn release_after(self, next: u64, time: u64) -> u64
        ensures { result ≡ cond (ltb time next) next (next_release last_time (seen self.entry.columns.now).earliest time (length self.entry.times.now)) }
    {
        if time < next {
            return next;
        }
        self.next_release(time)
    }

    // The leg from a state on, by the first release after it: what runs, until that release, or until it is complete where that comes first.
    pub(crate) fn leg_of(self, state: &State, release: u64) -> Leg
        requires { (state.now.time ≤ release) × ((u : ℕ) → u < length self.times.now → number_at state.now.work u ≤ number_at self.times.now u) }
        ensures { result ≡ leg_of self.entry.times.now state.now (best_up_to (seen self.entry.columns.now) self.entry.times.now state.now (length self.entry.times.now)) release }
    {
        let wait = release - state.time;
        let Some(best) = self.best_of(state) else {
            return Leg {
                at: None,
                ticks: wait,
            };
        };
        let rest = self.times[best.at] - state.work[best.at];
        Leg {
            at: Some(best.at),
            ticks: wait.min(rest),
        }
    }
}
