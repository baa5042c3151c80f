// What delays each job, as numbers written into lent memory.
ghost use Rattle.std.specs.Prelude.{◌≡◌, ◌+◌, ◌*◌, ◌≤◌, min, [], ◌∷◌, length, take};
ghost use Rattle.laws.specs.Words.{patched, written};
ghost use Rattle.jobs.specs.Limits.{max_jobs, max_chains};
ghost use Rattle.numbers.specs.Numbers.{block_numbers, delay_numbers, delays_numbers, room_check};

use crate::put::put_at;
use completion::answer::{Block, Delay};
use jobs::refusal::Refusal;
use jobs::set::JobSet;

// Writes the numbers of a block at a place, and answers the place after them.
fn put_block(block: Block, out: &mut [u64], at: usize) -> usize
    requires { at + 2 ≤ length out.old }
    ensures { (result ≡ at + length (block_numbers (block ∷ []))) × (out.new ≡ patched out.old at (block_numbers (block ∷ []))) }
{
    let numbers = [block.first as u64, block.last as u64];
    put_at(&numbers, out, at)
}

// Writes the numbers of the first blocks at a place, and answers the place after them.
fn put_blocks(blocks: [Block; Delay::CHAINS], chains: usize, out: &mut [u64], at: usize) -> usize
    requires { (chains ≤ max_chains) × (at + 2 * chains ≤ length out.old) }
    ensures { let numbers = block_numbers (take chains blocks) in (result ≡ at + length numbers) × (out.new ≡ patched out.old at numbers) }
{
    let mut place = at;
    for c in 0..chains {
        place = put_block(blocks[c], out, place);
    }
    place
}

// Writes the numbers of what delays a job at a place, and answers the place after them.
fn put_delay(delay: Delay, chains: usize, out: &mut [u64], at: usize) -> usize
    requires { (chains ≤ max_chains) × (at + (2 * chains + 1) ≤ length out.old) }
    ensures { (result ≡ at + length (delay_numbers chains delay)) × (out.new ≡ patched out.old at (delay_numbers chains delay)) }
{
    let from = [delay.from as u64];
    let blocks = delay.blocks;
    let next = put_at(&from, out, at);
    put_blocks(blocks, chains, out, next)
}

// Writes the numbers of what delays the first count jobs at the start of out.
fn put_each(delays: [Delay; JobSet::MAX_JOBS], count: usize, chains: usize, out: &mut [u64])
    requires { (count ≤ max_jobs) × (chains ≤ max_chains) × (count * (2 * chains + 1) ≤ length out.old) }
    ensures { out.new ≡ patched out.old 0 (delays_numbers chains (take count delays)) }
{
    let mut at: usize = 0;
    for n in 0..count {
        at = put_delay(delays[n], chains, out, at);
    }
}

// Writes what delays the first count jobs of a set of so many chains at the start of out, or refuses with 9 where it does not fit and writes nothing.
pub fn put_delays(
    delays: [Delay; JobSet::MAX_JOBS],
    count: usize,
    chains: usize,
    out: &mut [u64],
) -> Result<(), Refusal>
    ensures value { result ≡ room_check (length (delays_numbers chains (take count delays))) out.old }
    ensures out_after { out.new ≡ written (delays_numbers chains (take count delays)) out.old }
{
    let jobs = count.min(JobSet::MAX_JOBS);
    let blocks = chains.min(Delay::CHAINS);
    if out.len() < jobs * (2 * blocks + 1) {
        return Err(Refusal::ShortBuffer);
    }
    put_each(delays, jobs, blocks, out);
    Ok(())
}
