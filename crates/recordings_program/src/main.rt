// Reads a job table and two recordings of its run from the files that are its arguments, and prints whether each is legal and where they differ, or
// the line of the refusal.
#![tactic(auto)]

use recording::reading::Recording;
use recordings::text::{MAX_COMPARED_TEXT, recordings_text};
use std::rt::Files;
use std::{env, io};
use streams::{front, print, read_file};
use table::reading::MAX_TEXT;
use texts::refused::ready_to_print;

// A buffer of one byte more than the limit tells a table that is too long, and so many bytes of a recording decide how it is read.
fn print_comparison<R: Files + Print>(rt: &R, names: [&[u8]; 3]) -> io::Result<()> {
    let mut table = [0u8; MAX_TEXT + 1];
    let table_length = read_file(rt, names[0], &mut table)?;
    let mut first = [0u8; Recording::DECIDING_BYTES];
    let first_length = read_file(rt, names[1], &mut first)?;
    let mut second = [0u8; Recording::DECIDING_BYTES];
    let second_length = read_file(rt, names[2], &mut second)?;
    let mut out = [0u8; MAX_COMPARED_TEXT];
    let answer = recordings_text(
        &table[..table_length],
        &first[..first_length],
        &second[..second_length],
        &mut out,
    );
    let length = ready_to_print(answer, &mut out) as usize;
    print(rt, front(&out, length))
}

fn main(rt: HostRuntime) -> io::Result<()> {
    let arguments: Vec<String> = env::args(&rt)?.collect(rt.alloc())?;
    match arguments.as_slice() {
        [_, table, first, second] => print_comparison(
            &rt,
            [table.as_bytes(), first.as_bytes(), second.as_bytes()],
        ),
        _ => rt.eprintln("usage: recordings TABLE FIRST SECOND"),
    }
}
