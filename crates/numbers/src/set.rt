// A set as numbers: its jobs one after another, the numbers of each in the order of a table's columns.
ghost use Rattle.std.specs.Prelude.{◌≡◌, ◌+◌, ◌*◌, ◌≤◌, ◌<◌, length, drop};
ghost use Rattle.laws.specs.Words.{patched};
ghost use Rattle.jobs.specs.{Limits.max_jobs, Jobs.jobs_of};
ghost use Rattle.numbers.specs.Numbers.{job_size, job_numbers, numbers_of, job_in, jobs_held, set_in, held_set, put_check, put_from};

use crate::number::number_at;
use crate::put::put_at;
use jobs::job::Job;
use jobs::refusal::Refusal;
use jobs::set::JobSet;

// How many numbers a job takes.
pub const JOB_SIZE: usize = 7;

// The job at place i.
fn job_in(numbers: &[u64], i: usize) -> Job
    requires { i < max_jobs }
    ensures { result ≡ job_in numbers.now i }
{
    let at = JOB_SIZE * i;
    Job {
        chain: number_at(numbers, at),
        job: number_at(numbers, at + 1),
        release: number_at(numbers, at + 2),
        priority: number_at(numbers, at + 3),
        least: number_at(numbers, at + 4),
        most: number_at(numbers, at + 5),
        deadline: number_at(numbers, at + 6),
    }
}

// How many jobs there are in the numbers.
fn jobs_held(numbers: &[u64]) -> usize
    ensures { result ≡ jobs_held numbers.now }
{
    numbers.len().div_ceil(JOB_SIZE)
}

// The set of the first count jobs.
pub fn set_in(numbers: &[u64], count: usize) -> JobSet
    ensures { result ≡ set_in numbers.now count }
{
    let mut set = JobSet::empty();
    set.count = count;
    for n in 0..count {
        if JobSet::MAX_JOBS <= n {
            return set;
        }
        set.jobs[n] = job_in(numbers, n);
    }
    set
}

// The set of all jobs in the numbers.
pub fn held_set(numbers: &[u64]) -> JobSet
    ensures { result ≡ held_set numbers.now }
{
    set_in(numbers, jobs_held(numbers))
}

// Writes the numbers of a job at a place, and answers the place after them.
fn put_job(job: Job, out: &mut [u64], at: usize) -> usize
    requires { at + job_size ≤ length out.old }
    ensures { (result ≡ at + length (job_numbers job)) × (out.new ≡ patched out.old at (job_numbers job)) }
{
    let numbers = [
        job.chain,
        job.job,
        job.release,
        job.priority,
        job.least,
        job.most,
        job.deadline,
    ];
    put_at(&numbers, out, at)
}

// Writes the jobs from place `from` on, each at its own place.
fn put_rest(set: JobSet, from: usize, out: &mut [u64])
    requires { (set.count ≤ max_jobs) × (job_size * set.count ≤ length out.old) × (from ≤ set.count) }
    ensures { out.new ≡ patched out.old (job_size * from) (numbers_of (drop from (jobs_of set))) }
{
    let count = set.count;
    let mut at = JOB_SIZE * from;
    for n in from..count {
        at = put_job(set.jobs[n], out, at);
    }
}

// Writes the jobs of a set from place `from` on, each at its own place: 4 where the set counts more jobs than it has places, then 9.
pub fn put_jobs(set: JobSet, from: usize, out: &mut [u64]) -> Result<(), Refusal>
    ensures { (result ≡ put_check (jobs_of set) out.old) × (out.new ≡ put_from (jobs_of set) from out.old) }
{
    let count = set.count;
    if JobSet::MAX_JOBS < count {
        return Err(Refusal::TooManyRecords);
    }
    if out.len() < JOB_SIZE * count {
        return Err(Refusal::ShortBuffer);
    }
    if from <= count {
        put_rest(set, from, out);
    }
    Ok(())
}
