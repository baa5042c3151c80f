// Prints a line for each case. Four arguments give one: its name, and the files of a table, of a first and of a second recording. The line has the
// name, what reading each recording comes to and whether it is legal, and where the two differ; on a refusal of the comparison its number.
#![tactic(auto)]

mod comparing;
mod kept;

use crate::kept::print_kept;
use std::rt::Files;
use std::{env, io};
use streams::{argument, print};

// The case that the first four arguments give.
fn print_case<R: Files + Print>(rt: &R, arguments: &[String]) -> io::Result<()> {
    print(rt, argument(arguments, 0))?;
    print!(rt; ": ")?;
    print_kept(
        rt,
        argument(arguments, 1),
        argument(arguments, 2),
        argument(arguments, 3),
    )?;
    print!(rt; "\n")
}

// Arguments left over by four give no case.
fn main(rt: HostRuntime) -> io::Result<()> {
    let arguments: Vec<String> = env::args(&rt)?.skip(1).collect(rt.alloc())?;
    for case in arguments.chunks_exact(4) {
        print_case(&rt, case)?;
    }
    Ok(())
}
