// The blocks that the interference on a target takes, one of each other chain.
ghost use Rattle.std.specs.Prelude.{◌≡◌};
ghost use Rattle.laws.specs.Words.{number_at, tabulate};
ghost use Rattle.jobs.specs.Limits.{max_chains};
ghost use Rattle.theory.specs.Delays.{blocks_on};
ghost use Rattle.theory.proofs.{Columns.lent, Weights.spanned};
ghost use Rattle.completion.specs.Delays.{block_named};

use crate::answer::{Block, Delay};
use crate::table::Table;
use crate::taken::taken_block;
use crate::target::Target;
use jobs::set::JobSet;

// The block of the chain of a number, none where it is the target's own.
fn chain_block(
    table: &Table,
    bound: &[u64; JobSet::MAX_JOBS],
    numbers: &[u16; JobSet::MAX_JOBS],
    target: Target,
    chain: u64,
) -> Block
    ensures { let t = table.now in
        let blocks = blocks_on (lent t.count t.columns) target.chain target.urgency (spanned t.columns bound.now target.from target.to) in
        result ≡ block_named (number_at numbers.now) (blocks chain) }
{
    if chain == target.chain {
        return Block::none();
    }
    let mut i: usize = 0;
    // A turn jumps to the place after a chain, which no range of places does.
    while i < table.count {
        let end = table.end(i);
        if table.chain(i) == chain {
            return taken_block(table, bound, numbers, target, i, end);
        }
        i = end;
    }
    Block::none()
}

// The blocks of chains 1, 2, and so on, on a target.
pub(crate) fn blocks_on(
    table: &Table,
    bound: &[u64; JobSet::MAX_JOBS],
    numbers: &[u16; JobSet::MAX_JOBS],
    target: Target,
) -> [Block; Delay::CHAINS]
    ensures { let t = table.now in
        let blocks = blocks_on (lent t.count t.columns) target.chain target.urgency (spanned t.columns bound.now target.from target.to) in
        result ≡ tabulate 1 max_chains (λ c. block_named (number_at numbers.now) (blocks c)) }
{
    let none = Block::none();
    let mut each = [none; Delay::CHAINS];
    for n in 0..Delay::CHAINS {
        let chain = (n + 1) as u64;
        each[n] = chain_block(table, bound, numbers, target, chain);
    }
    each
}
