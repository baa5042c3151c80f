// Reads a job table from standard input and prints the blocks that delay its jobs by ITR, or the line of its refusal.
#![tactic(auto)]

ghost use Rattle.blocks.specs.Texts.{blocks_text};

use blocks::text::{MAX_BLOCKS_TEXT, blocks_text};
use jobs::refusal::Refusal;
use std::io;
use table_programs::{TableText, print_written};

struct Blocks;

impl TableText for Blocks {
    ghost text_of = { blocks_text };

    fn write(&self, table: &[u8], out: &mut [u8]) -> Result<u32, Refusal> {
        blocks_text(table, out)
    }
}

fn main(rt: HostRuntime) -> io::Result<()> {
    let mut out = [0u8; MAX_BLOCKS_TEXT];
    print_written(&rt, &Blocks, &mut out)
}
