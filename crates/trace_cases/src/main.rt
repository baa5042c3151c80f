// Prints one line for each case named as an argument: its name, and what the machine makes of the table kept under it.
//   trace/NAME   the entries of the run with all most times, its end, and its steps from event to event
//   edge/NAME    the trace with a buffer one number short, and with one just long enough
#![tactic(auto)]

mod edges;
mod traces;

use crate::edges::print_edge;
use crate::traces::print_trace;
use std::rt::Files;
use std::{env, io};
use streams::{argument, print};

// The first letter of the name tells what is asked.
fn print_case<R: Files + Print>(rt: &R, name: &[u8]) -> io::Result<()> {
    if name.is_empty() {
        return Ok(());
    }
    print(rt, name)?;
    print!(rt; ":")?;
    if name.starts_with(b"t") {
        print_trace(rt, name)?;
    } else {
        print_edge(rt, name)?;
    }
    print!(rt; "\n")
}

fn main(rt: HostRuntime) -> io::Result<()> {
    let arguments: Vec<String> = env::args(&rt)?.collect(rt.alloc())?;
    for i in 1..arguments.len() {
        print_case(&rt, argument(&arguments, i))?;
    }
    Ok(())
}
