// Reads a job table from standard input and prints the bounds of its jobs, or the line of its refusal.
#![tactic(auto)]

ghost use Rattle.report.specs.Texts.{bounds_text};

use jobs::refusal::Refusal;
use report::bounds::bounds_text;
use report::room::MAX_BYTES;
use std::io;
use table_programs::{TableText, print_written};

struct Bounds;

impl TableText for Bounds {
    ghost text_of = { bounds_text };

    fn write(&self, table: &[u8], out: &mut [u8]) -> Result<u32, Refusal> {
        bounds_text(table, out)
    }
}

fn main(rt: HostRuntime) -> io::Result<()> {
    let mut out = [0u8; MAX_BYTES];
    print_written(&rt, &Bounds, &mut out)
}
