// Prints for each case named as an argument its name, and what becomes of the waveform of the table kept under it, with all most times.
//   wave/NAME   the waveform
//   room/NAME   the answer of a buffer one byte short of it and of one just long enough, and the first byte that the buffer then holds
#![tactic(auto)]

mod edges;
mod waves;

use crate::edges::print_edge;
use crate::waves::print_wave;
use std::rt::Files;
use std::{env, io};
use streams::{argument, print};

// The first letter of the name tells what is asked.
fn print_case<R: Files + Print>(rt: &R, name: &[u8]) -> io::Result<()> {
    if name.is_empty() {
        return Ok(());
    }
    print(rt, name)?;
    print!(rt; ":\n")?;
    if name.starts_with(b"w") {
        print_wave(rt, name)
    } else {
        print_edge(rt, name)
    }
}

fn main(rt: HostRuntime) -> io::Result<()> {
    let arguments: Vec<String> = env::args(&rt)?.collect(rt.alloc())?;
    for i in 1..arguments.len() {
        print_case(&rt, argument(&arguments, i))?;
    }
    Ok(())
}
