// Which of two ready jobs goes first: the more urgent, among equals the one that became ready earlier, then that of the lower chain number.
ghost use Rattle.std.specs.Prelude.{◌≡◌, ◌<◌, length};
ghost use Rattle.laws.specs.Words.{number_at};
ghost use Rattle.theory.proofs.Columns.{seen};
ghost use Rattle.machine.specs.Order.{ready_since, rank_of, outranks};

use crate::columns::{CHAIN, RELEASE, URGENCY};
use crate::state::State;
use crate::timed::TimedJobs;

// What ranks a ready job: its urgency, the time since when it is ready, and its chain.
#[derive(Clone, Copy)]
pub struct Rank {
    pub urgency: u64,
    pub since: u64,
    pub chain: u64,
}

impl Rank {
    // Whether a job of this rank goes before one of the other.
    pub(crate) fn is_outranking(self, other: Rank) -> bool
        ensures { result ≡ outranks self other }
    {
        if self.urgency != other.urgency {
            return other.urgency < self.urgency;
        }
        if self.since != other.since {
            return self.since < other.since;
        }
        self.chain < other.chain
    }
}

impl<'a> TimedJobs<'a> {
    // Since when a ready job is ready: its release, or its predecessor's completion where that is later.
    fn ready_since(self, at: usize, state: &State) -> u64
        requires { at < length self.times.now }
        ensures { result ≡ ready_since (seen self.entry.columns.now) (number_at state.now.completions) at }
    {
        let release = self.figure(RELEASE, at);
        if at == 0 {
            return release;
        }
        if self.figure(CHAIN, at - 1) != self.figure(CHAIN, at) {
            return release;
        }
        release.max(state.completions[at - 1])
    }

    // The rank of a ready job.
    pub(crate) fn rank_of(self, at: usize, state: &State) -> Rank
        requires { at < length self.times.now }
        ensures { result ≡ rank_of (seen self.entry.columns.now) (number_at state.now.completions) at }
    {
        Rank {
            urgency: self.figure(URGENCY, at),
            since: self.ready_since(at, state),
            chain: self.figure(CHAIN, at),
        }
    }
}
