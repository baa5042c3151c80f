// A writer is handed the table and the buffer, and what it leaves is printed.
ghost use Rattle.std.specs.Prelude.{◌≡◌, length};

use crate::writer::{TableWriter, print_written_by};
use jobs::refusal::Refusal;
use std::alloc::Allocator;
use std::cell::Cell;
use std::fmt::Display;
use std::io;
use std::io::{BufRead, Lines};
use streams::front;
use texts::bytes::put_bytes;
use texts::putter::{Putter, write_whole_by};

// A standard input of these bytes, and how many were printed last.
#[derive(Drop)]
struct Given<'a> {
    input: &'a [u8],
    printed: Cell<usize>,
}

impl<'a> Input for Given<'a> {
    type Reader = &'a [u8];

    fn read_line<A: Allocator + Clone>(&self, line: &mut String<A>) -> io::Result<usize> {
        self.reader().read_line(line)
    }

    fn lines<A: Allocator>(&self, alloc: A) -> Lines<&'a [u8], A> {
        self.reader().lines(alloc)
    }

    fn reader(&self) -> &'a [u8] {
        self.input
    }
}

impl Print for Given<'_> {
    fn print<D: Display + Drop>(&self, _value: D) -> io::Result<()> {
        Ok(())
    }

    fn println<D: Display + Drop>(&self, _value: D) -> io::Result<()> {
        Ok(())
    }

    fn write_all(&self, bytes: &[u8]) -> io::Result<()> {
        self.printed.set(bytes.len());
        Ok(())
    }
}

// The first two bytes of a table, of which it says how many they are.
#[derive(Drop)]
struct Pair<'a>(&'a [u8]);

impl Putter for Pair<'_> {
    ghost puts = { λ pair before n after. n ≡ 2 };

    fn put(&self, out: &mut [u8]) -> u32 {
        put_bytes(front(self.0, 2), out, 0);
        2
    }
}

// Writes the first two bytes of a table, whole or not at all.
#[derive(Drop)]
struct Pairs;

impl TableWriter for Pairs {
    ghost writes = { λ pairs table before answer after. length after ≡ length before };

    fn write(self, table: &[u8], out: &mut [u8]) -> Result<u32, Refusal> {
        if table.len() < 2 {
            return Err(Refusal::NotHeader);
        }
        write_whole_by(&Pair(table), out)
    }
}

#[test]
fn a_pair_is_printed_whole_or_not_at_all(rt: HostRuntime) -> io::Result<()> {
    for (input, room, count, left) in [
        (b"ab-----".as_slice(), 1, 0, b"............"),
        (b"ab-----".as_slice(), 2, 2, b"ab.........."),
        (b"ab".as_slice(), 12, 2, b"ab.........."),
        (b"a".as_slice(), 10, 0, b"............"),
        (b"a".as_slice(), 11, 11, b"refused,2\r\n."),
    ] {
        let given = Given {
            input,
            printed: Cell::new(0),
        };
        let mut out = *b"............";
        print_written_by(&given, Pairs, &mut out[..room])?;
        assert_eq!(rt; given.printed.get(), count, "in {room} bytes");
        assert_eq!(rt; &out, left, "in {room} bytes");
    }
    Ok(())
}
