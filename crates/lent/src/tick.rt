// One tick in the caller's memory.
ghost use Rattle.std.specs.Prelude.{◌≡◌};
ghost use Rattle.jobs.specs.Jobs.{jobs_of};
ghost use Rattle.machine.specs.Ticks.{step_of};

use jobs::refusal::Refusal;
use jobs::set::JobSet;
use machine::state::State;
use machine::step::{Stepped, Ticked, step};

// One tick, applied to the state where the caller keeps it; on a refusal, and where all is finished, the state is as before.
pub fn tick(state: &mut State, set: JobSet, times: &[u64]) -> Result<Ticked, Refusal>
    ensures { (result ≡ (step_of (jobs_of set) times.now state.old).ticked) × (state.new ≡ (step_of (jobs_of set) times.now state.old).state) }
{
    let old = *state;
    let stepped = step(old, set, times);
    *state = stepped.state;
    stepped.ticked
}

// One tick on a state by value, through the form by reference.
pub fn tick_kept(state: State, set: JobSet, times: &[u64]) -> Stepped
    ensures { result ≡ step_of (jobs_of set) times.now state }
{
    let mut kept = state;
    let ticked = tick(&mut kept, set, times);
    Stepped {
        ticked,
        state: kept,
    }
}
