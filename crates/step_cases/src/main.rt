// Prints two lines for each case named as an argument: its name, and one tick on what is kept under it, by value and in lent memory.
//   step/NAME    the table; the next argument, with/NAME, has the running times, then time and work, then completions, which may be left out
// A line tells the answer and the state after it, the second line the most urgent ready job of the lent records too.
#![tactic(auto)]

mod lines;
mod steps;

use crate::steps::print_step;
use std::rt::Files;
use std::{env, io};
use streams::{argument, print};

// The first letter of a name tells a table from what goes with it.
fn print_case<R: Files + Print>(rt: &R, name: &[u8], next: &[u8]) -> io::Result<()> {
    if name.starts_with(b"s") {
        print(rt, name)?;
        print!(rt; ":")?;
        print_step(rt, name, next)?;
        print!(rt; "\n")?;
    }
    Ok(())
}

fn main(rt: HostRuntime) -> io::Result<()> {
    let arguments: Vec<String> = env::args(&rt)?.collect(rt.alloc())?;
    for i in 1..arguments.len() {
        print_case(&rt, argument(&arguments, i), argument(&arguments, i + 1))?;
    }
    Ok(())
}
