// What delays the jobs of a set.
use analysis::bounds::bounds;
use completion::answer::Delay;
use jobs::last::last_of;
use jobs::set::JobSet;
use std::io;

// The job from which the sum begins, and the first and the last job of the block of each chain.
fn print_delay<R: Print>(rt: &R, delay: &Delay, chains: usize) -> io::Result<()> {
    let from = delay.from;
    print!(rt; " {from}")?;
    for block in delay.blocks.iter().take(chains) {
        let (first, last) = (block.first, block.last);
        print!(rt; ",{first}-{last}")?;
    }
    Ok(())
}

// What delays each job by an algorithm.
pub(crate) fn print_by<R: Print>(rt: &R, set: JobSet, algorithm: u64) -> io::Result<()> {
    print!(rt; " by {algorithm}")?;
    match bounds(set, algorithm) {
        Err(refusal) => print!(rt; " {refusal}"),
        Ok(bounds) => {
            let chains = last_of(set).chain as usize;
            for delay in bounds.delays.iter().take(set.count) {
                print_delay(rt, delay, chains)?;
            }
            Ok(())
        }
    }
}
