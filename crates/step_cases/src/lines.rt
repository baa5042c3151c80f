// Lines of numbers kept as files: a comma between two numbers, a line feed after each line.
use jobs::set::JobSet;
use std::io;
use std::rt::Files;
use streams::read_file;

// The numbers of a text, those of each line from a place of its own on, and 0 where a line has no more; how many each line has; the line that has begun.
#[derive(Clone, Copy)]
pub(crate) struct Lines {
    pub values: [u64; Lines::MAX * Lines::LENGTH],
    pub counts: [usize; Lines::MAX],
    begun: usize,
}

impl Lines {
    // The running times; a time and the work of each job; the completion of each job.
    const MAX: usize = 3;

    pub const LENGTH: usize = 1 + JobSet::MAX_JOBS;

    fn none() -> Lines {
        Lines {
            values: [0; Lines::MAX * Lines::LENGTH],
            counts: [0; Lines::MAX],
            begun: 0,
        }
    }

    // A digit goes on the number that has begun.
    fn push_digit(&mut self, digit: u64) {
        let line = self.begun;
        if line < Lines::MAX && self.counts[line] < Lines::LENGTH {
            let at = line * Lines::LENGTH + self.counts[line];
            self.values[at] = grown(self.values[at], digit);
        }
    }

    // A comma and a line feed end a number, a line feed its line too.
    fn end_number(&mut self, byte: u8) {
        let line = self.begun;
        if line < Lines::MAX {
            if self.counts[line] < Lines::LENGTH {
                self.counts[line] += 1;
            }
            if byte == b'\n' {
                self.begun += 1;
            }
        }
    }
}

// A number with one more digit.
fn grown(value: u64, digit: u64) -> u64 {
    if value <= 1_000_000_000_000 && digit <= 9 {
        10 * value + digit
    } else {
        value
    }
}

fn lines_in(text: &[u8]) -> Lines {
    let mut lines = Lines::none();
    for byte in text {
        if *byte < b'0' {
            lines.end_number(*byte);
        } else {
            lines.push_digit((*byte - b'0') as u64);
        }
    }
    lines
}

// A file that is not there holds no number.
pub(crate) fn lines_of<R: Files>(rt: &R, name: &[u8]) -> io::Result<Lines> {
    let mut text = [0u8; 512];
    let length = read_file(rt, name, &mut text)?;
    Ok(lines_in(&text[..length]))
}
