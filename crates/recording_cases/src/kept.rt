// Tables and recordings kept as files.
use crate::comparing::print_compared;
use jobs::set::JobSet;
use kept_tables::read_file;
use recording::reading::Recording;
use std::io;
use std::rt::Files;

fn print_recordings<R: Files + Print>(
    rt: &R,
    set: JobSet,
    first: &[u8],
    second: &[u8],
) -> io::Result<()> {
    let mut one = [0u8; Recording::DECIDING_BYTES];
    let one_length = streams::read_file(rt, first, &mut one)?;
    let mut other = [0u8; Recording::DECIDING_BYTES];
    let other_length = streams::read_file(rt, second, &mut other)?;
    print_compared(rt, set, &one[..one_length], &other[..other_length])
}

// Where the table is refused the set is empty.
pub(crate) fn print_kept<R: Files + Print>(
    rt: &R,
    table: &[u8],
    first: &[u8],
    second: &[u8],
) -> io::Result<()> {
    let set = match read_file(rt, table)? {
        Ok(set) => set,
        Err(refusal) => {
            print!(rt; "table {refusal}, ")?;
            JobSet::empty()
        }
    };
    print_recordings(rt, set, first, second)
}
