// The functions that run a set in the caller's memory: one tick, the run, its steps, its trace and its waveform.
ghost use Rattle.std.specs.Prelude.{◌≡◌, length, pos};
ghost use Rattle.jobs.specs.{declared.refusal.Refusal.Refusal, Refusals.on_pass, Jobs.jobs_of};
ghost use Rattle.machine.specs.{Ticks.machine_check, Runs.run_of, Runs.trace_of, Runs.traced_in};
ghost use Rattle.waveform.specs.Answers.{waveform_answer, waveform_left};
ghost use Rattle.cudlomer.specs.{Codes.refusal_code, Codes.traced_code, Codes.written_code};
ghost use Rattle.cudlomer.specs.Sets.{jobs_here, tick_code, tick_into, on_run, run_code, run_into};

use crate::codes::{checked_code, negated, ticked_code, traced_code, written_code};
use jobs::refusal::Refusal;
use jobs::set::JobSet;
use lent::tick::tick_kept;
use machine::run::run;
use machine::times::check_times;
use machine::trace::trace;
use numbers::put::put;
use numbers::set::held_set;
use numbers::state::{STATE_SIZE, put_state, state_in};
use waveform::waveform::write_waveform;

// The refusal of a tick on a state of too few numbers: that of the set or of its running times, else 9.
fn short_state(set: JobSet, times: &[u64]) -> i64
    ensures { result ≡ on_pass (machine_check (jobs_of set) times.now) refusal_code (refusal_code Refusal.ShortBuffer) }
{
    if let Err(refusal) = check_times(set, times) {
        return negated(refusal);
    }
    negated(Refusal::ShortBuffer)
}

// Applies one tick to the state in memory: 0 idle, 1 finished, the chain times 65,536 and the job where one ran.
#[unsafe(no_mangle)]
pub extern "C" fn cudlomer_set_tick(jobs: &[u64], times: &[u64], state: &mut [u64]) -> i64
    ensures { let js = jobs_here jobs.now in (result ≡ tick_code js times.now state.old) × (state.new ≡ tick_into js times.now state.old) }
{
    let set = held_set(jobs);
    if state.len() < STATE_SIZE {
        return short_state(set, times);
    }
    let stepped = tick_kept(state_in(state), set, times);
    let code = ticked_code(stepped.ticked);
    if code < 0 {
        return code;
    }
    let _ = put_state(stepped.state, state);
    code
}

// Writes each job's completion into out, and answers the end of the run.
#[unsafe(no_mangle)]
pub extern "C" fn cudlomer_set_run(jobs: &[u64], times: &[u64], out: &mut [u64]) -> i64
    ensures { let js = jobs_here jobs.now in (result ≡ run_code js times.now out.old) × (out.new ≡ run_into js times.now out.old) }
{
    let set = held_set(jobs);
    let run = match run(set, times) {
        Ok(run) => run,
        Err(refusal) => return negated(refusal),
    };
    checked_code(put(&run.completions[..set.count], out), run.end)
}

// Writes the entries of the run into out, chain, job, from and to for each, and answers how many there are.
#[unsafe(no_mangle)]
pub extern "C" fn cudlomer_set_trace(jobs: &[u64], times: &[u64], out: &mut [u64]) -> i64
    ensures { let js = jobs_here jobs.now in (result ≡ traced_code (trace_of js times.now (length out.old))) × (out.new ≡ traced_in js times.now out.old) }
{
    traced_code(trace(held_set(jobs), times, out))
}

// The steps of the run from event to event.
#[unsafe(no_mangle)]
pub extern "C" fn cudlomer_set_steps(jobs: &[u64], times: &[u64]) -> i64
    ensures { result ≡ on_run (run_of (jobs_here jobs.now) times.now) refusal_code (λ run. pos run.steps) }
{
    match run(held_set(jobs), times) {
        Ok(run) => checked_code(Ok(()), run.steps),
        Err(refusal) => checked_code(Err(refusal), 0),
    }
}

// Writes the waveform of the run into out, and answers how many bytes it takes.
#[unsafe(no_mangle)]
pub extern "C" fn cudlomer_set_waveform(jobs: &[u64], times: &[u64], out: &mut [u8]) -> i64
    ensures value { result ≡ written_code (waveform_answer (jobs_here jobs.now) times.now out.old) }
    ensures out_after { out.new ≡ waveform_left (jobs_here jobs.now) times.now out.old }
{
    written_code(write_waveform(held_set(jobs), times, out))
}
