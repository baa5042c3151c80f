// Prints one line for each case named as an argument: its name, and what the part makes of the tables kept under it.
//   reading/NAME     what reading the file comes to
//   bounds/NAME      rounds, verdicts by algorithm 1 to 4, and the bounds and slack of the last jobs
//   admission/NAME   what the chain of the next argument, with/NAME, comes to that asks to join, by algorithm 1 to 4
#![tactic(auto)]

mod admission;
mod bounds;
mod sets;

use crate::admission::print_admission;
use crate::bounds::print_bounds;
use crate::sets::print_reading;
use std::rt::Files;
use std::{env, io};
use streams::{argument, print};

// The first letter of the name tells what is asked; a chain that asks to join has no line of its own.
fn print_case<R: Files + Print>(rt: &R, name: &[u8], next: &[u8]) -> io::Result<()> {
    if name.is_empty() || name.starts_with(b"w") {
        return Ok(());
    }
    print(rt, name)?;
    print!(rt; ":")?;
    match name[0] {
        b'r' => print_reading(rt, name)?,
        b'b' => print_bounds(rt, name)?,
        b'a' => print_admission(rt, name, next)?,
        _ => {}
    }
    print!(rt; "\n")
}

fn main(rt: HostRuntime) -> io::Result<()> {
    let arguments: Vec<String> = env::args(&rt)?.collect(rt.alloc())?;
    for i in 1..arguments.len() {
        print_case(&rt, argument(&arguments, i), argument(&arguments, i + 1))?;
    }
    Ok(())
}
