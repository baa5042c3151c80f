// A further chain asks to come aboard.
use crate::bounds::print_verdict;
use crate::sets::print_set;
use analysis::admission::admit;
use kept_tables::set_of;
use std::io;
use std::rt::Files;

// The chain of one file asks to join the set of another, by algorithm 1 to 4.
pub(crate) fn print_admission<R: Files + Print>(
    rt: &R,
    old_name: &[u8],
    new_name: &[u8],
) -> io::Result<()> {
    let old = set_of(rt, old_name)?;
    let new = set_of(rt, new_name)?;
    for algorithm in 1..=4 {
        let admission = admit(old, new, algorithm);
        print_verdict(rt, admission.verdict)?;
        print!(rt; " ")?;
        print_set(rt, admission.set)?;
        print!(rt; ";")?;
    }
    Ok(())
}
