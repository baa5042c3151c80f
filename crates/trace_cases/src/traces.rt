// Runs with all most times: the trace, the end, and the steps from event to event.
use jobs::most::most_times;
use jobs::set::JobSet;
use kept_tables::set_of;
use machine::run::run;
use machine::trace::{MAX_NUMBERS, Traced, trace};
use std::io;
use std::rt::Files;

// The first entries: chain, job, from, to of each.
fn print_entries<R: Print>(rt: &R, numbers: &[u64], count: usize) -> io::Result<()> {
    for entry in numbers.chunks_exact(4).take(count) {
        if let [chain, job, from, to] = entry {
            print!(rt; " {chain},{job},{from},{to}")?;
        }
    }
    Ok(())
}

fn print_run<R: Print>(rt: &R, set: JobSet, times: &[u64], numbers: &mut [u64]) -> io::Result<()> {
    match trace(set, times, numbers) {
        Err(refusal) => print!(rt; " {refusal}"),
        Ok(Traced { entries, steps }) => {
            print_entries(rt, numbers, entries)?;
            let end = run(set, times).map_or(0, |completed| completed.end);
            print!(rt; ", end {end}, steps {steps}")
        }
    }
}

pub(crate) fn print_trace<R: Files + Print>(rt: &R, name: &[u8]) -> io::Result<()> {
    let set = set_of(rt, name)?;
    let times = most_times(set);
    let mut numbers = [0u64; MAX_NUMBERS];
    if set.count <= JobSet::MAX_JOBS {
        print_run(rt, set, &times[..set.count], &mut numbers)?;
    }
    Ok(())
}
