// Single ticks on handed states.
use crate::lines::{Lines, lines_of};
use jobs::refusal::Refusal;
use jobs::set::JobSet;
use kept_tables::set_of;
use lent::scan::most_urgent_of;
use lent::tick::tick_kept;
use machine::state::State;
use machine::step::{Stepped, Ticked, step};
use numbers::state::state_in;
use std::io;
use std::rt::Files;
use streams::print;

fn print_ticked<R: Print>(rt: &R, ticked: Result<Ticked, Refusal>) -> io::Result<()> {
    match ticked {
        Ok(Ticked::Ran { chain, job }) => print!(rt; " ran {chain},{job}"),
        Ok(Ticked::Idle) => print!(rt; " idle"),
        Ok(Ticked::Finished) => print!(rt; " finished"),
        Err(refusal) => print!(rt; " {refusal}"),
    }
}

// The values of the first few jobs.
fn print_values<R: Print>(rt: &R, values: &[u64], shown: usize) -> io::Result<()> {
    for value in values.iter().take(shown) {
        print!(rt; " {value}")?;
    }
    Ok(())
}

// The time, and the work and the completions of the first few jobs.
fn print_state<R: Print>(rt: &R, state: &State, shown: usize) -> io::Result<()> {
    let time = state.time;
    print!(rt; ", time {time}, work")?;
    print_values(rt, &state.work, shown)?;
    print!(rt; ", completions")?;
    print_values(rt, &state.completions, shown)
}

// The answer of a tick, and the state after it.
fn print_stepped<R: Print>(rt: &R, stepped: &Stepped, shown: usize) -> io::Result<()> {
    print_ticked(rt, stepped.ticked)?;
    print_state(rt, &stepped.state, shown)
}

// The most urgent ready job of the lent records by its chain and number, or none.
fn print_most_urgent<R: Print>(rt: &R, set: JobSet, times: &[u64], state: State) -> io::Result<()> {
    print!(rt; ", most urgent")?;
    let Some(best) = most_urgent_of(set, times, state) else {
        return print!(rt; " none");
    };
    if let Some(job) = set.jobs.get(best.at) {
        let (chain, number) = (job.chain, job.job);
        print!(rt; " {chain},{number}")?;
    }
    Ok(())
}

// The tick in lent memory; where it is not refused, the most urgent job too.
fn print_lent<R: Print>(
    rt: &R,
    set: JobSet,
    times: &[u64],
    state: State,
    shown: usize,
) -> io::Result<()> {
    let stepped = tick_kept(state, set, times);
    print_stepped(rt, &stepped, shown)?;
    match stepped.ticked {
        Ok(_) => print_most_urgent(rt, set, times, state),
        Err(_) => Ok(()),
    }
}

// One tick by value and, on a line of its own, one in lent memory.
fn print_ticks<R: Print>(
    rt: &R,
    name: &[u8],
    set: JobSet,
    times: &[u64],
    state: State,
    shown: usize,
) -> io::Result<()> {
    print_stepped(rt, &step(state, set, times), shown)?;
    print!(rt; "\n")?;
    print(rt, name)?;
    print!(rt; ", lent:")?;
    print_lent(rt, set, times, state, shown)
}

// The table of one file; the running times are the first line of another, and the second and third stand as a state's numbers do.
// As many jobs of the state are printed as the second line has work of.
pub(crate) fn print_step<R: Files + Print>(
    rt: &R,
    name: &[u8],
    lines_name: &[u8],
) -> io::Result<()> {
    let set = set_of(rt, name)?;
    let lines = lines_of(rt, lines_name)?;
    let (count, handed) = (lines.counts[0], lines.counts[1]);
    if 0 < handed && count <= JobSet::MAX_JOBS {
        let state = state_in(&lines.values[Lines::LENGTH..]);
        print_ticks(rt, name, set, &lines.values[..count], state, handed - 1)?;
    }
    Ok(())
}
