// Reads a job table from standard input and prints the waveform of its run with all most times, or the line of its refusal.
#![tactic(auto)]

ghost use Rattle.dumps.specs.Dumps.{most_waveform};

use jobs::refusal::Refusal;
use std::io;
use table_programs::{TableText, print_written};
use waveform::waveform::{MAX_WAVEFORM, waveform_text};

struct Waveform;

impl TableText for Waveform {
    ghost text_of = { most_waveform };

    fn write(&self, table: &[u8], out: &mut [u8]) -> Result<u32, Refusal> {
        waveform_text(table, out)
    }
}

fn main(rt: HostRuntime) -> io::Result<()> {
    let mut out = [0u8; MAX_WAVEFORM];
    print_written(&rt, &Waveform, &mut out)
}
