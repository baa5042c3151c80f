// The functions on a set in the caller's memory: reading and writing, bounds, verdict and admission.
ghost use Rattle.std.specs.Prelude.{◌≡◌, ◌≤◌, length};
ghost use Rattle.jobs.specs.{Limits.max_jobs, Jobs.jobs_of};
ghost use Rattle.analysis.specs.Answers.{verdict_of};
ghost use Rattle.numbers.specs.Numbers.{held_set, put_check, put_from};
ghost use Rattle.report.specs.Listing.{table_answer, table_left};
ghost use Rattle.cudlomer.specs.{Codes.checked_code, Codes.written_code, Codes.verdict_code};
ghost use Rattle.cudlomer.specs.Sets.{jobs_here, read_code, read_into, bounds_code, bounds_into, blocks_code, blocks_into, rounds_code, admission_here, admit_code, admit_into};

use crate::codes::{checked_code, negated, verdict_code, written_code};
use analysis::admission::admit;
use analysis::bounds::{bounds, bounds_alone};
use analysis::verdict::verdict;
use completion::itr::itr_alone;
use jobs::last::last_of;
use jobs::set::JobSet;
use numbers::delays::put_delays;
use numbers::put::put;
use numbers::set::{held_set, put_jobs, set_in};
use report::listing::table_text;

// Writes the jobs of a set from place `from` on into memory, and answers how many the set has.
fn put_set(set: JobSet, from: usize, memory: &mut [u64]) -> i64
    requires { set.count ≤ max_jobs }
    ensures { let js = jobs_of set in (result ≡ checked_code (put_check js memory.old) (length js)) × (memory.new ≡ put_from js from memory.old) }
{
    let count = set.count as u64;
    checked_code(put_jobs(set, from, memory), count)
}

// How many rounds ITR takes on a set.
pub(crate) fn rounds_of(set: JobSet) -> i64
    ensures { result ≡ rounds_code (jobs_of set) }
{
    match itr_alone(set) {
        Ok(answer) => checked_code(Ok(()), answer.rounds),
        Err(refusal) => negated(refusal),
    }
}

// Reads the jobs of a table's text into memory, and answers how many there are.
#[unsafe(no_mangle)]
pub extern "C" fn cudlomer_set_read(text: &[u8], jobs: &mut [u64]) -> i64
    ensures { (result ≡ read_code text.now jobs.old) × (jobs.new ≡ read_into text.now jobs.old) }
{
    match table::reading::read(text) {
        Err(refusal) => negated(refusal),
        Ok(set) => put_set(set, 0, jobs),
    }
}

// Writes the text of a table with the jobs in memory into out, and answers how many bytes it takes.
#[unsafe(no_mangle)]
pub extern "C" fn cudlomer_set_write(jobs: &[u64], out: &mut [u8]) -> i64
    ensures { let js = jobs_here jobs.now in (result ≡ written_code (table_answer js out.old)) × (out.new ≡ table_left js out.old) }
{
    written_code(table_text(held_set(jobs), out))
}

// Writes the bound of each job by 1 ERT, 2 CJA or 3 ITR into out, and answers how many there are.
#[unsafe(no_mangle)]
pub extern "C" fn cudlomer_set_bounds(jobs: &[u64], algorithm: u64, out: &mut [u64]) -> i64
    ensures { let js = jobs_here jobs.now in (result ≡ bounds_code js algorithm out.old) × (out.new ≡ bounds_into js algorithm out.old) }
{
    let set = held_set(jobs);
    match bounds_alone(set, algorithm) {
        Ok(bounds) => {
            let count = set.count;
            checked_code(put(&bounds[..count], out), count as u64)
        }
        Err(refusal) => negated(refusal),
    }
}

// Writes what delays each job by 1 ERT, 2 CJA or 3 ITR into out: the number of the job from which its bound's sum begins, and of each chain the first and
// the last job of its block, 0 and 0 for none and for its own; answers how many numbers there are.
#[unsafe(no_mangle)]
pub extern "C" fn cudlomer_set_blocks(jobs: &[u64], algorithm: u64, out: &mut [u64]) -> i64
    ensures { let js = jobs_here jobs.now in (result ≡ blocks_code js algorithm out.old) × (out.new ≡ blocks_into js algorithm out.old) }
{
    let set = held_set(jobs);
    match bounds(set, algorithm) {
        Ok(answer) => {
            let count = set.count;
            let last = last_of(set);
            let chains = last.chain as usize;
            checked_code(
                put_delays(answer.delays, count, chains, out),
                (count * (2 * chains + 1)) as u64,
            )
        }
        Err(refusal) => negated(refusal),
    }
}

// Answers 1 where all deadlines are met by the algorithm 1 ERT, 2 CJA or 3 ITR, and 0 where they are not.
#[unsafe(no_mangle)]
pub extern "C" fn cudlomer_set_verdict(jobs: &[u64], algorithm: u64) -> i64
    ensures { result ≡ verdict_code (verdict_of (held_set jobs.now) algorithm) }
{
    verdict_code(verdict(held_set(jobs), algorithm))
}

// Answers how many rounds ITR takes.
#[unsafe(no_mangle)]
pub extern "C" fn cudlomer_set_rounds(jobs: &[u64]) -> i64
    ensures { result ≡ rounds_code (jobs_here jobs.now) }
{
    rounds_of(held_set(jobs))
}

// Admits a further chain to the first count jobs in memory: on yes it writes the chain behind them and answers how many jobs there are then, on no 0.
#[unsafe(no_mangle)]
pub extern "C" fn cudlomer_set_admit(
    jobs: &mut [u64],
    count: u64,
    chain: &[u64],
    algorithm: u64,
) -> i64
    ensures { let answer = admission_here jobs.old count chain.now algorithm in (result ≡ admit_code answer.verdict (jobs_of answer.set) jobs.old) × (jobs.new ≡ admit_into answer.verdict (jobs_of answer.set) count jobs.old) }
{
    let held = count as usize;
    let old = set_in(jobs, held);
    let admission = admit(old, held_set(chain), algorithm);
    let verdict = admission.verdict;
    match verdict {
        Ok(true) => put_set(admission.set, held, jobs),
        Ok(false) => 0,
        Err(refusal) => negated(refusal),
    }
}
