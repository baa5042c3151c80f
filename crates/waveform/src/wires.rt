// A line for each wire: its declaration, and its value at time 0.
ghost use Rattle.std.specs.Prelude.{◌+◌, ◌≤◌, eqb, length};
ghost use Rattle.laws.specs.Words.{tabulate};
ghost use Rattle.laws.proofs.Clipped.{Put};
ghost use Rattle.jobs.specs.{Limits.max_jobs, Jobs.jobs_of};
ghost use Rattle.dumps.specs.{Dumps.lines_text, Dumps.wire_line, Dumps.value_line, Claims.max_waveform};

use crate::lines::{put_value, put_wire};
use jobs::set::JobSet;

// Puts the declarations of the wires, and answers the place after them.
pub(crate) fn put_wires(set: JobSet, out: &mut [u8], at: usize) -> usize
    requires { (set.count ≤ max_jobs) × (at + length (lines_text (tabulate 0 set.count (wire_line (jobs_of set)))) ≤ max_waveform) }
    ensures { Put out.old at (lines_text (tabulate 0 set.count (wire_line (jobs_of set)))) out.new result }
{
    let count = set.count;
    let mut next = at;
    for n in 0..count {
        let chain = set.jobs[n].chain;
        let number = set.jobs[n].job;
        next = put_wire(n, chain, number, out, next);
    }
    next
}

// Puts the values at time 0, of which the one at the place `first` is 1, and answers the place after them.
pub(crate) fn put_values(first: usize, count: usize, out: &mut [u8], at: usize) -> usize
    requires { (count ≤ max_jobs) × (at + length (lines_text (tabulate 0 count (λ u. value_line (eqb first u) u))) ≤ max_waveform) }
    ensures { Put out.old at (lines_text (tabulate 0 count (λ u. value_line (eqb first u) u))) out.new result }
{
    let mut next = at;
    for n in 0..count {
        next = put_value(first == n, n, out, next);
    }
    next
}
