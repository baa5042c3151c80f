// The run from time 0, from one release or completion to the next.
ghost use Rattle.std.specs.Prelude.{◌≡◌, length};
ghost use Rattle.jobs.specs.Jobs.{jobs_of};
ghost use Rattle.theory.proofs.{Columns.shown, Runnable.Runnable};
ghost use Rattle.machine.specs.Runs.{finish, completions, steps_of, run_of};

use crate::columns::columns_of;
use crate::state::State;
use crate::timed::TimedJobs;
use crate::times::{check_times, total};
use jobs::refusal::Refusal;
use jobs::set::JobSet;

// Each job's completion time, 0 in the other places, the end of the run, and its steps from event to event.
#[derive(Clone, Copy)]
pub struct Completed {
    pub completions: [u64; JobSet::MAX_JOBS],
    pub end: u64,
    pub steps: u64,
}

impl<'a> TimedJobs<'a> {
    // The engine: the run of jobs and running times that have passed, leg by leg until no work is left.
    pub(crate) fn run_through(self) -> Completed
        requires { Runnable (shown (length self.times.now) self.columns.now) self.times.now }
        ensures { let t = shown (length self.entry.times.now) self.entry.columns.now in
            result ≡ record { completions = completions t self.entry.times.now; end = (finish t self.entry.times.now).time; steps = steps_of t self.entry.times.now } }
    {
        let mut state = State::start();
        let mut left = total(self.times);
        let mut release = self.next_release(0);
        let mut steps: u64 = 0;
        // How long a leg is, the leg itself says, so that no range counts the turns.
        while 0 < left {
            let leg = self.leg_of(&state, release);
            let ticks = leg.ticks;
            state.time += ticks;
            if let Some(at) = leg.at {
                state.work_on(at, ticks, self.times);
                left -= ticks;
            }
            release = self.release_after(release, state.time);
            steps += 1;
        }
        Completed {
            completions: state.completions,
            end: state.time,
            steps,
        }
    }
}

// The refusals of the set, then 8, then the run from time 0 until all jobs are complete.
pub fn run(set: JobSet, times: &[u64]) -> Result<Completed, Refusal>
    ensures { result ≡ run_of (jobs_of set) times.now }
{
    check_times(set, times)?;
    let columns = columns_of(set);
    let jobs = TimedJobs {
        columns: &columns,
        times,
    };
    Ok(jobs.run_through())
}
