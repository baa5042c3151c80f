// What comparing two recordings comes to.
use jobs::set::JobSet;
use recorders::compare::compare;
use recording::reading::read_recording;
use std::io;

// How many rows a recording has, or its refusal.
fn print_read<R: Print>(rt: &R, set: JobSet, text: &[u8]) -> io::Result<()> {
    match read_recording(set, text) {
        Err(refusal) => print!(rt; "{refusal}"),
        Ok(recording) => {
            let count = recording.count;
            print!(rt; "rows {count}")
        }
    }
}

// The same, and whether it is legal.
fn print_judged<R: Print>(rt: &R, set: JobSet, text: &[u8], legal: bool) -> io::Result<()> {
    print_read(rt, set, text)?;
    if legal {
        print!(rt; " legal, ")
    } else {
        print!(rt; " illegal, ")
    }
}

// What reading each recording comes to, then the answer to the comparison.
pub(crate) fn print_compared<R: Print>(
    rt: &R,
    set: JobSet,
    first: &[u8],
    second: &[u8],
) -> io::Result<()> {
    match compare(set, first, second) {
        Err(refusal) => {
            print_read(rt, set, first)?;
            print!(rt; ", ")?;
            print_read(rt, set, second)?;
            print!(rt; ", {refusal}")
        }
        Ok(compared) => {
            print_judged(rt, set, first, compared.first)?;
            print_judged(rt, set, second, compared.second)?;
            match compared.difference {
                Some(tick) => print!(rt; "difference {tick}"),
                None => print!(rt; "difference none"),
            }
        }
    }
}
