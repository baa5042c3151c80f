// One tick on a state, by value, with its checks.
ghost use Rattle.std.specs.Prelude.{◌≡◌};
ghost use Rattle.jobs.specs.Jobs.{jobs_of};
ghost use Rattle.theory.specs.Table.{table_of};
ghost use Rattle.theory.proofs.Columns.{seen, Alike};
ghost use Rattle.machine.specs.Ticks.{machine_check, state_check, step_of, tick_of};

use crate::columns::columns_of;
use crate::state::State;
use crate::timed::TimedJobs;
use crate::times::check_times;
use jobs::refusal::Refusal;
use jobs::set::JobSet;

// What a tick answers: the chain and job that ran, idle, or finished before it.
#[derive(Clone, Copy)]
pub enum Ticked {
    Ran { chain: u64, job: u64 },
    Idle,
    Finished,
}

// The answer, and the state after the tick, which stands beside a refusal too: `step` promises it there.
#[derive(Clone, Copy)]
pub struct Stepped {
    pub ticked: Result<Ticked, Refusal>,
    pub state: State,
}

// The tick itself, on a state that has passed.
fn advance(state: State, set: JobSet, jobs: TimedJobs<'_>) -> Stepped
    requires { ((machine_check (jobs_of set) jobs.times.now ≡ Ok tt) × Alike (seen jobs.columns.now) (table_of (jobs_of set)) set.count) × (state_check (table_of (jobs_of set)) jobs.times.now state ≡ Ok tt) }
    ensures { result ≡ tick_of (jobs_of set) jobs.entry.times.now state }
{
    let mut next = state;
    next.time += 1;
    if let Some(best) = jobs.best_of(&state) {
        next.work_on(best.at, 1, jobs.times);
        let job = set.jobs[best.at];
        return Stepped {
            ticked: Ok(Ticked::Ran {
                chain: job.chain,
                job: job.job,
            }),
            state: next,
        };
    }
    if jobs.are_complete(&state) {
        return Stepped {
            ticked: Ok(Ticked::Finished),
            state,
        };
    }
    Stepped {
        ticked: Ok(Ticked::Idle),
        state: next,
    }
}

// One tick: the refusals of the set, 8 and 11, then finished; on all of these the state is as before.
pub fn step(state: State, set: JobSet, times: &[u64]) -> Stepped
    ensures { result ≡ step_of (jobs_of set) times.now state }
{
    if let Err(refusal) = check_times(set, times) {
        return Stepped {
            ticked: Err(refusal),
            state,
        };
    }
    let columns = columns_of(set);
    let jobs = TimedJobs {
        columns: &columns,
        times,
    };
    if let Err(refusal) = jobs.check_state(&state) {
        return Stepped {
            ticked: Err(refusal),
            state,
        };
    }
    advance(state, set, jobs)
}
