// Traces into buffers at the edge of refusal 9.
use jobs::most::most_times;
use jobs::set::JobSet;
use kept_tables::set_of;
use machine::trace::{MAX_NUMBERS, Traced, trace};
use std::io;
use std::rt::Files;

// How long the buffer is, what a trace into it answers, and the first number that it then holds.
fn print_traced<R: Print>(
    rt: &R,
    set: JobSet,
    times: &[u64],
    numbers: &mut [u64],
) -> io::Result<()> {
    let room = numbers.len();
    print!(rt; " {room} numbers ")?;
    match trace(set, times, numbers) {
        Err(refusal) => print!(rt; "{refusal}")?,
        Ok(Traced { entries, .. }) => print!(rt; "{entries} entries")?,
    }
    if let Some(first) = numbers.first() {
        print!(rt; ", first {first}")?;
    }
    print!(rt; ";")
}

// A trace into a buffer of this many numbers, each of them 7 before.
fn print_into<R: Print>(rt: &R, set: JobSet, times: &[u64], room: usize) -> io::Result<()> {
    let mut numbers = [7u64; MAX_NUMBERS];
    if room <= MAX_NUMBERS {
        print_traced(rt, set, times, &mut numbers[..room])?;
    }
    Ok(())
}

// Eight numbers for each job are enough, one fewer is not.
fn print_sides<R: Print>(rt: &R, set: JobSet, times: &[u64]) -> io::Result<()> {
    let count = times.len();
    if 0 < count && count <= JobSet::MAX_JOBS {
        print_into(rt, set, times, 8 * count - 1)?;
        print_into(rt, set, times, 8 * count)?;
    }
    Ok(())
}

pub(crate) fn print_edge<R: Files + Print>(rt: &R, name: &[u8]) -> io::Result<()> {
    let set = set_of(rt, name)?;
    let times = most_times(set);
    if set.count <= JobSet::MAX_JOBS {
        print_sides(rt, set, &times[..set.count])?;
    }
    Ok(())
}
