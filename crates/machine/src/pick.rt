// The pick: of the ready jobs, the one that goes before every other.
ghost use Rattle.std.specs.Prelude.{◌≡◌, ◌<◌, ◌≤◌, cond, length, Some};
ghost use Rattle.laws.specs.Words.{number_at};
ghost use Rattle.theory.proofs.Columns.{seen};
ghost use Rattle.machine.specs.{Order.rank_of, Ticks.ready_in, Ticks.better, Ticks.best_up_to};

use crate::rank::Rank;
use crate::state::State;
use crate::timed::TimedJobs;

// The best ready job so far.
#[derive(Clone, Copy)]
pub struct Best {
    pub at: usize,
    pub rank: Rank,
}

// A ready job takes the place of the best so far where there is none or it goes before it.
#[tactic(auto, unfolding(crate::specs::Ticks::better))]
pub fn better_of(best: Option<Best>, at: usize, rank: Rank) -> Best
    ensures { result ≡ better best at rank }
{
    if let Some(best) = best {
        if !rank.is_outranking(best.rank) {
            return best;
        }
    }
    Best { at, rank }
}

impl<'a> TimedJobs<'a> {
    // The best after one more job, which counts where it is ready.
    fn consider(self, best: Option<Best>, at: usize, state: &State) -> Option<Best>
        requires { at < length self.times.now }
        ensures { let t = seen self.entry.columns.now in
            result ≡ cond (ready_in t self.entry.times.now state.now at) (Some (better best at (rank_of t (number_at state.now.completions) at))) best }
    {
        if !self.is_ready(at, state) {
            return best;
        }
        Some(better_of(best, at, self.rank_of(at, state)))
    }

    // The best of all jobs.
    pub(crate) fn best_of(self, state: &State) -> Option<Best>
        ensures { result ≡ best_up_to (seen self.entry.columns.now) self.entry.times.now state.now (length self.entry.times.now) }
    {
        let mut best = None;
        for n in 0..self.times.len() {
            best = self.consider(best, n, state);
        }
        best
    }
}
