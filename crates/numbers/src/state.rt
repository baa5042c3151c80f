// A machine's state as numbers: the time, then the work of each place, then the completion of each place.
ghost use Rattle.std.specs.Prelude.{◌≡◌, ◌≤◌};
ghost use Rattle.laws.specs.Words.{written};
ghost use Rattle.jobs.specs.Limits.{max_jobs};
ghost use Rattle.numbers.specs.Numbers.{state_size, state_numbers, column_in, state_in, room_check};

use crate::number::number_at;
use crate::put::put_at;
use jobs::refusal::Refusal;
use jobs::set::JobSet;
use machine::state::State;

// Where the work starts, after the time.
const WORK: usize = 1;

// Where the completions start, after the work.
const COMPLETIONS: usize = WORK + JobSet::MAX_JOBS;

// How many numbers a state takes.
pub const STATE_SIZE: usize = COMPLETIONS + JobSet::MAX_JOBS;

// One number for each place of a set, from a place of the numbers on.
fn column_in(numbers: &[u64], from: usize) -> [u64; JobSet::MAX_JOBS]
    requires { from ≤ state_size }
    ensures { result ≡ column_in numbers.now from }
{
    let mut column = [0u64; JobSet::MAX_JOBS];
    for n in 0..JobSet::MAX_JOBS {
        column[n] = number_at(numbers, from + n);
    }
    column
}

// The state that the numbers start with.
pub fn state_in(numbers: &[u64]) -> State
    ensures { result ≡ state_in numbers.now }
{
    State {
        time: number_at(numbers, 0),
        work: column_in(numbers, WORK),
        completions: column_in(numbers, COMPLETIONS),
    }
}

// Writes a state at the start of out, or refuses with 9 where it does not fit and writes nothing.
pub fn put_state(state: State, out: &mut [u64]) -> Result<(), Refusal>
    ensures { (result ≡ room_check state_size out.old) × (out.new ≡ written (state_numbers state) out.old) }
{
    let time = [state.time];
    let work = state.work;
    let completions = state.completions;
    if out.len() < STATE_SIZE {
        return Err(Refusal::ShortBuffer);
    }
    put_at(&time, out, 0);
    put_at(&work, out, WORK);
    put_at(&completions, out, COMPLETIONS);
    Ok(())
}
