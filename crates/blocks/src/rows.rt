// The rows of the text: of a job and one chain, of a job, and of all jobs. Each function answers the place after what it puts.
ghost use Rattle.std.specs.Prelude.{◌≡◌, ◌+◌, ◌≤◌, ◌<◌, suc, map, length};
ghost use Rattle.laws.proofs.Clipped.{Put};
ghost use Rattle.jobs.specs.{Limits.max_jobs, Limits.max_chains, Jobs.chains_of, Jobs.jobs_of};
ghost use Rattle.texts.specs.Lines.{lines_text};
ghost use Rattle.blocks.specs.Texts.{block_row, other_chain, job_rows, blocks_rows, max_blocks_text};

use crate::row::put_row;
use completion::answer::Delay;
use jobs::job::Job;
use jobs::set::JobSet;

// The row of a job and the chain after the first n, none where that is its own.
fn put_chain(job: Job, delay: Delay, n: usize, out: &mut [u8], at: usize) -> usize
    requires n_lt_max_chains { n < max_chains }
    requires rows_bound { let rows = map (block_row job delay) (other_chain job.chain (suc n)) in at + length (lines_text rows) ≤ max_blocks_text }
    ensures { let rows = map (block_row job delay) (other_chain job.chain (suc n)) in Put out.old at (lines_text rows) out.new result }
{
    let other = (n + 1) as u64;
    if other == job.chain {
        return at;
    }
    put_row(job, delay.from, other, delay.blocks[n], out, at)
}

// The rows of a job of a set of so many chains.
fn put_job(job: Job, delay: Delay, chains: usize, out: &mut [u8], at: usize) -> usize
    requires { (chains ≤ max_chains) × (at + length (lines_text (job_rows chains job delay)) ≤ max_blocks_text) }
    ensures { Put out.old at (lines_text (job_rows chains job delay)) out.new result }
{
    let mut next = at;
    for n in 0..chains {
        next = put_chain(job, delay, n, out, next);
    }
    next
}

// The rows of all jobs.
pub(crate) fn put_rows(
    set: JobSet,
    delays: [Delay; JobSet::MAX_JOBS],
    chains: usize,
    out: &mut [u8],
    at: usize,
) -> usize
    requires count_le_max_jobs { (set.count ≤ max_jobs) × (chains ≤ max_chains) × (chains ≡ chains_of (jobs_of set)) }
    requires count_bound { at + length (lines_text (blocks_rows (jobs_of set) delays set.count)) ≤ max_blocks_text }
    ensures { Put out.old at (lines_text (blocks_rows (jobs_of set) delays set.count)) out.new result }
{
    let count = set.count;
    let mut next = at;
    for n in 0..count {
        next = put_job(set.jobs[n], delays[n], chains, out, next);
    }
    next
}
