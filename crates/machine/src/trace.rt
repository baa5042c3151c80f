// The trace of the run from time 0, into a lent buffer, from one release or completion to the next.
ghost use Rattle.std.specs.Prelude.{◌≡◌, ◌+◌, ◌-◌, ◌*◌, ◌≤◌, ◌<◌, cond, ◌&&◌, ltb, eqb, length, ◌∷◌, []};
ghost use Rattle.laws.specs.Words.{patched};
ghost use Rattle.jobs.specs.{Limits.max_jobs, Jobs.jobs_of};
ghost use Rattle.theory.proofs.{Columns.shown, Runnable.Runnable};
ghost use Rattle.machine.specs.{Ticks.last_time, Runs.steps_of, Runs.spans, Runs.rows, Runs.trace_of, Runs.traced_in};

use crate::columns::columns_of;
use crate::state::State;
use crate::timed::TimedJobs;
use crate::times::{check_times, total};
use jobs::job::Job;
use jobs::refusal::Refusal;
use jobs::set::JobSet;

// Enough numbers for every trace, by the theorem `trace_within_twice`: four for each entry, and at most twice as many entries as there are jobs.
pub const MAX_NUMBERS: usize = 8 * JobSet::MAX_JOBS;

// A run of the job at a place of the table.
#[derive(Clone, Copy)]
pub struct Span {
    pub at: usize,
    pub from: u64,
    pub to: u64,
}

// How many entries a trace has, and the steps from event to event of its run.
#[derive(Clone, Copy)]
pub struct Traced {
    pub entries: usize,
    pub steps: u64,
}

// Where a leg goes in a trace: the entry that it is part of, as it then is, and how many there then are.
// The count tells whether there is a last entry: an optional span would be no plainer, since the entry's number needs the count all the same.
#[derive(Clone, Copy)]
pub struct Put {
    pub entry: usize,
    pub entries: usize,
    pub span: Span,
}

// The job at a place ran from a time to another: the last entry goes on, or a new one begins.
fn put_at(last: Span, entries: usize, at: usize, time: u64, to: u64) -> Put
    requires { entries ≤ 2 * max_jobs }
    ensures { let on = ltb 0 entries && (eqb last.at at && eqb last.to time) in result ≡ record { entry = cond on (entries - 1) entries; entries = cond on entries (entries + 1); span = record { at = at; from = cond on last.from time; to = to } } }
{
    if 0 < entries {
        if (last.at == at) & (last.to == time) {
            return Put {
                entry: entries - 1,
                entries,
                span: Span {
                    at,
                    from: last.from,
                    to,
                },
            };
        }
    }
    Put {
        entry: entries,
        entries: entries + 1,
        span: Span { at, from: time, to },
    }
}

// Writes the four numbers of an entry.
fn write_entry(job: Job, put: Put, out: &mut [u64])
    requires { 4 * put.entry + 3 < length out.old }
    ensures { out.new ≡ patched out.old (4 * put.entry) (job.chain ∷ job.job ∷ put.span.from ∷ put.span.to ∷ []) }
{
    let k = 4 * put.entry;
    out[k] = job.chain;
    out[k + 1] = job.job;
    out[k + 2] = put.span.from;
    out[k + 3] = put.span.to;
}

// The entries of jobs and running times that have passed, leg by leg into a buffer with room for them.
fn write_entries(set: JobSet, jobs: TimedJobs<'_>, out: &mut [u64]) -> Traced
    requires { Runnable (shown (length jobs.times.now) jobs.columns.now) jobs.times.now × (length jobs.times.now ≡ set.count) × (8 * length jobs.times.now ≤ length out.old) }
    ensures { let t = shown (length jobs.entry.times.now) jobs.entry.columns.now in
        let ss = spans t jobs.entry.times.now last_time in
        (result ≡ record { entries = length ss; steps = steps_of t jobs.entry.times.now }) × (out.new ≡ patched out.old 0 (rows (jobs_of set) ss)) }
{
    let mut state = State::start();
    let mut left = total(jobs.times);
    let mut release = jobs.next_release(0);
    let mut last = Span {
        at: 0,
        from: 0,
        to: 0,
    };
    let mut entries: usize = 0;
    let mut steps: u64 = 0;
    // How long a leg is, the leg itself says, so that no range counts the turns.
    while 0 < left {
        let leg = jobs.leg_of(&state, release);
        let ticks = leg.ticks;
        let from = state.time;
        let to = from + ticks;
        state.time = to;
        if let Some(at) = leg.at {
            state.work_on(at, ticks, jobs.times);
            left -= ticks;
            let put = put_at(last, entries, at, from, to);
            write_entry(set.jobs[at], put, out);
            last = put.span;
            entries = put.entries;
        }
        release = jobs.release_after(release, to);
        steps += 1;
    }
    Traced { entries, steps }
}

// The refusals of the set, then 8, then 9, then the entries of the run from time 0, four numbers each.
pub fn trace(set: JobSet, times: &[u64], out: &mut [u64]) -> Result<Traced, Refusal>
    ensures { (result ≡ trace_of (jobs_of set) times.now (length out.old)) × (out.new ≡ traced_in (jobs_of set) times.now out.old) }
{
    check_times(set, times)?;
    if out.len() < 8 * set.count {
        return Err(Refusal::ShortBuffer);
    }
    let columns = columns_of(set);
    let jobs = TimedJobs {
        columns: &columns,
        times,
    };
    Ok(write_entries(set, jobs, out))
}
