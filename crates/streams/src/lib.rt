// Reading into a buffer and printing from one, as the programs do.
#![tactic(auto)]

ghost use Rattle.std.specs.Prelude.{◌≡◌, ◌≤◌, length, take, map, string_bytes, IfOk};
ghost use Rattle.streams.specs.Names.{name_at};

use std::io::{Read, Write};
use std::rt::Files;
use std::{fs, io, str};

// Reads until the buffer is full or the input ends, and answers how many bytes it put at the start.
pub fn read_full<R: Read>(reader: &mut R, buffer: &mut [u8]) -> io::Result<usize>
    ensures { IfOk result (λ count. count ≤ length buffer.new) }
{
    let mut done = 0;
    // How much a read brings the reader says, so that no range counts the turns.
    while done < buffer.len() {
        let count = reader.read(&mut buffer[done..])?;
        if count == 0 {
            return Ok(done);
        }
        done += count;
    }
    Ok(done)
}

// As much of a file as the buffer has room for; one that is not there, or whose name is no text, is an empty text.
pub fn read_file<R: Files>(rt: &R, name: &[u8], buffer: &mut [u8]) -> io::Result<usize>
    ensures { IfOk result (λ count. count ≤ length buffer.new) }
{
    let Ok(path) = str::from_utf8(name) else {
        return Ok(0);
    };
    match fs::open(rt, path) {
        Ok(file) => {
            let mut file = file;
            read_full(&mut file, buffer)
        }
        Err(_) => Ok(0),
    }
}

// Prints the text.
pub fn print<R: Print>(rt: &R, text: &[u8]) -> io::Result<()> {
    io::writer(rt).write_all(text)
}

// The first bytes of the buffer, as many as that or all.
pub fn front(buffer: &[u8], count: usize) -> &[u8]
    ensures { result.now ≡ take count buffer.now }
{
    &buffer[..count.min(buffer.len())]
}

// The most bytes that the name of a case has.
pub const MAX_NAME: usize = 64;

// The bytes of the argument at a place; none beyond the last, nor where it is too long for the name of a case.
pub fn argument(arguments: &[String], place: usize) -> &[u8]
    ensures { result.now ≡ name_at (map string_bytes arguments.now) place }
{
    match arguments.get(place) {
        Some(text) if text.len() <= MAX_NAME => text.as_bytes(),
        _ => b"",
    }
}
