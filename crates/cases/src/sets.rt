// Sets as they are read.
use jobs::set::JobSet;
use kept_tables::read_file;
use std::io;
use std::rt::Files;

// How many jobs there are, and the last of them.
pub(crate) fn print_set<R: Print>(rt: &R, set: JobSet) -> io::Result<()> {
    let count = set.count;
    print!(rt; "{count}")?;
    if 0 < count && count <= JobSet::MAX_JOBS {
        let last = set.jobs[count - 1];
        print!(rt; ", the last {last}")?;
    }
    Ok(())
}

pub(crate) fn print_reading<R: Files + Print>(rt: &R, name: &[u8]) -> io::Result<()> {
    print!(rt; " ")?;
    match read_file(rt, name)? {
        Err(refusal) => print!(rt; "{refusal}"),
        Ok(set) => {
            print!(rt; "accepted ")?;
            print_set(rt, set)
        }
    }
}
