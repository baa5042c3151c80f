// The whole dump of a trace.
ghost use Rattle.laws.proofs.Clipped.{Put};
ghost use Rattle.jobs.specs.Jobs.{jobs_of};
ghost use Rattle.dumps.specs.Dumps.{dump_of};
ghost use Rattle.dumps.proofs.Entries.{spans_of, Drawn};

use crate::changes::put_changes;
use crate::entries::first_place;
use crate::wires::{put_values, put_wires};
use jobs::set::JobSet;
use texts::bytes::put_bytes;

// Puts as much of the dump of the first entries as the buffer has room for, and answers how many bytes the dump takes.
pub(crate) fn put_dump(set: JobSet, numbers: &[u64], entries: usize, out: &mut [u8]) -> usize
    requires { Drawn (jobs_of set) numbers.now entries }
    ensures { Put out.old 0 (dump_of (jobs_of set) (spans_of (jobs_of set) numbers.now entries)) out.new result }
{
    let first = first_place(set, numbers, entries);
    let count = set.count;
    let wires = put_bytes(b"$timescale 100 us $end\n$scope module core $end\n", out, 0);
    let start = put_wires(set, out, wires);
    let values = start
        + put_bytes(
            b"$upscope $end\n$enddefinitions $end\n#0\n$dumpvars\n",
            out,
            start,
        );
    let end = put_values(first, count, out, values);
    let changes = end + put_bytes(b"$end\n", out, end);
    put_changes(set, numbers, entries, out, changes)
}
