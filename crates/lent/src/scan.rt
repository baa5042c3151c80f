// The scan over lent job records, which changes none.
ghost use Rattle.std.specs.Prelude.{◌≡◌, suc, true, ◌-◌, ◌<◌, ◌≤◌, max, cond, not, ◌&&◌, ◌||◌, List, None, option_map, length, leb, ltb, eqb};
ghost use Rattle.laws.specs.Words.{number_at};
ghost use Rattle.jobs.specs.{Limits.max_jobs, Jobs.job_at, Jobs.jobs_of, Jobs.urgency_of};
ghost use Rattle.theory.specs.Table.{table_of};
ghost use Rattle.machine.specs.Ticks.{better, best_up_to};
ghost use Rattle.machine.proofs.Scanned.{scanned, elapsed_since, after, fewer, best_by};

use jobs::job::Job;
use jobs::set::JobSet;
use machine::pick::{Best, better_of};
use machine::rank::Rank;
use machine::state::State;
use numbers::number::number_at;

// What a scan knows: the best ready job so far and, of the last record, its chain, its least time, whether it is complete, and for how long it is released, if it is.
#[derive(Clone, Copy)]
struct Scan {
    best: Option<Best>,
    last: u64,
    least: u64,
    done: bool,
    elapsed: Option<u64>,
}

// Whether a record is of the chain of the one before it.
fn is_following(scan: Scan, job: Job, at: usize) -> bool
    ensures { result ≡ ltb 0 at && eqb scan.last job.chain }
{
    (0 < at) & (scan.last == job.chain)
}

// The ticks since the effective release of a record, where it is released; `follows` says whether it is of the chain of the one before it.
#[tactic(auto, unfolding(machine::proofs::Scanned::elapsed_since))]
fn since_release(scan: Scan, job: Job, follows: bool, time: u64) -> Option<u64>
    ensures { let own = elapsed_since time job.release in result ≡ cond follows (fewer own (after scan.elapsed scan.least)) own }
{
    let own = time.checked_sub(job.release)?;
    if !follows {
        return Some(own);
    }
    let chain = scan.elapsed?.checked_sub(scan.least)?;
    Some(own.min(chain))
}

// Since when a record is ready, where it is: its release, or its predecessor's completion where that is later.
// The release is the time less the ticks since, because a sum over records that nobody checked could wrap.
fn ready_since(
    scan: Scan,
    follows: bool,
    done: bool,
    at: usize,
    elapsed: Option<u64>,
    state: &State,
) -> Option<u64>
    requires { follows ≡ true → 0 < at }
    ensures { let completed = number_at state.now.completions (at - 1) in
        result ≡ cond (not done && (not follows || scan.done)) (option_map (λ ticks. cond follows (max (state.now.time - ticks) completed) (state.now.time - ticks)) elapsed) None }
{
    if done || (follows && !scan.done) {
        return None;
    }
    let release = state.time.saturating_sub(elapsed?);
    if !follows {
        return Some(release);
    }
    Some(release.max(number_at(&state.completions, at - 1)))
}

// The best of a scan after a record that is ready since a time, or not ready.
fn best_after(best: Option<Best>, job: Job, at: usize, since: Option<u64>) -> Option<Best>
    ensures { result ≡ best_by best job at since }
{
    let Some(since) = since else {
        return best;
    };
    let rank = Rank {
        urgency: Job::urgency(job),
        since,
        chain: job.chain,
    };
    Some(better_of(best, at, rank))
}

// One record is looked at.
// Its promise holds for any jobs js, where the scan is of those before the place `at` and the record is the one there.
fn look_at(scan: Scan, job: Job, at: usize, times: &[u64], state: &State) -> Scan
    ensures { (js : List Job)
        → (scan.best, scan.last, scan.least, scan.done, scan.elapsed) ≡ scanned js times.now state.now at
        → job ≡ job_at js at
        → (result.best, result.last, result.least, result.done, result.elapsed) ≡ scanned js times.now state.now (suc at) }
{
    let follows = is_following(scan, job, at);
    let elapsed = since_release(scan, job, follows, state.time);
    let done = number_at(&state.work, at) == number_at(times, at);
    let since = ready_since(scan, follows, done, at, elapsed, state);
    Scan {
        best: best_after(scan.best, job, at, since),
        last: job.chain,
        least: job.least,
        done,
        elapsed,
    }
}

// The most urgent ready job of the lent records, by the rule that a step uses.
pub fn most_urgent(jobs: &[Job], times: &[u64], state: State) -> Option<Best>
    ensures { result ≡ best_up_to (table_of jobs.now) times.now state (length jobs.now) }
{
    let mut scan = Scan {
        best: None,
        last: 0,
        least: 0,
        done: false,
        elapsed: None,
    };
    for i in 0..jobs.len() {
        scan = look_at(scan, jobs[i], i, times, &state);
    }
    scan.best
}

// The most urgent ready job of the records that a set counts, which are lent.
fn most_urgent_counted(set: JobSet, times: &[u64], state: State) -> Option<Best>
    requires { set.count ≤ max_jobs }
    ensures { result ≡ best_up_to (table_of (jobs_of set)) times.now state set.count }
{
    most_urgent(&set.jobs[..set.count], times, state)
}

// The most urgent ready job of a set, by the scan over its records; none of a set that counts more records than it has places.
pub fn most_urgent_of(set: JobSet, times: &[u64], state: State) -> Option<Best>
    ensures { result ≡ best_up_to (table_of (jobs_of set)) times.now state (cond (leb set.count max_jobs) set.count 0) }
{
    if set.count <= JobSet::MAX_JOBS {
        return most_urgent_counted(set, times, state);
    }
    None
}
