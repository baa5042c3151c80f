// Prints a line for each case named as an argument: its name, and what delays each job of the table kept under it, by algorithm 1 to 4.
#![tactic(auto)]

mod blocks;

use crate::blocks::print_by;
use kept_tables::set_of;
use std::rt::Files;
use std::{env, io};
use streams::{argument, print};

fn print_case<R: Files + Print>(rt: &R, name: &[u8]) -> io::Result<()> {
    print(rt, name)?;
    print!(rt; ":")?;
    let set = set_of(rt, name)?;
    for algorithm in 1..=4 {
        print_by(rt, set, algorithm)?;
    }
    print!(rt; "\n")
}

fn main(rt: HostRuntime) -> io::Result<()> {
    let arguments: Vec<String> = env::args(&rt)?.collect(rt.alloc())?;
    for i in 1..arguments.len() {
        print_case(&rt, argument(&arguments, i))?;
    }
    Ok(())
}
