// The comparison of two recordings of the set in the caller's memory.
ghost use Rattle.std.specs.Prelude.{◌≡◌};
ghost use Rattle.cudlomer.specs.{Sets.jobs_here, Recordings.compared_numbers, Recordings.compare_code, Recordings.compare_into};

use crate::codes::{checked_code, negated};
use numbers::put::put;
use numbers::set::held_set;
use recorders::compare::{Compared, compare};

// How many numbers the answer to a comparison takes.
pub const COMPARED_SIZE: usize = 4;

// The numbers of an answer: whether each recording is legal, whether they differ, and where.
fn numbers_of(compared: Compared) -> [u64; COMPARED_SIZE]
    ensures { result ≡ compared_numbers compared }
{
    [
        compared.first as u64,
        compared.second as u64,
        compared.difference.is_some() as u64,
        compared.difference.unwrap_or(0),
    ]
}

// Compares two recordings of the set, writes whether the first is legal, whether the second is, whether they differ and at which tick, and answers 4.
#[unsafe(no_mangle)]
pub extern "C" fn cudlomer_set_compare(
    jobs: &[u64],
    first: &[u8],
    second: &[u8],
    out: &mut [u64],
) -> i64
    ensures value { result ≡ compare_code (jobs_here jobs.now) first.now second.now out.old }
    ensures out_after { out.new ≡ compare_into (jobs_here jobs.now) first.now second.now out.old }
{
    match compare(held_set(jobs), first, second) {
        Err(refusal) => negated(refusal),
        Ok(compared) => {
            let numbers = numbers_of(compared);
            checked_code(put(&numbers, out), COMPARED_SIZE as u64)
        }
    }
}
