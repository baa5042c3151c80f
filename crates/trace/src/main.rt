// Reads a job table from standard input and prints the run of its jobs with all most times, or the line of its refusal.
#![tactic(auto)]

ghost use Rattle.report.specs.Texts.{trace_text};

use jobs::refusal::Refusal;
use report::room::MAX_BYTES;
use report::trace::trace_text;
use std::io;
use table_programs::{TableText, print_written};

struct Trace;

impl TableText for Trace {
    ghost text_of = { trace_text };

    fn write(&self, table: &[u8], out: &mut [u8]) -> Result<u32, Refusal> {
        trace_text(table, out)
    }
}

fn main(rt: HostRuntime) -> io::Result<()> {
    let mut out = [0u8; MAX_BYTES];
    print_written(&rt, &Trace, &mut out)
}
