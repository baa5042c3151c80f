// The bounds of an accepted set and what they come from.
ghost use Rattle.std.specs.Prelude.{◌≡◌};
ghost use Rattle.completion.specs.{Delays.no_block, Delays.no_delay};

use jobs::set::JobSet;

// The jobs of one chain that delay a job, by the numbers of the first and the last of them; 0 and 0 where there is none.
#[derive(Clone, Copy)]
pub struct Block {
    pub first: u16,
    pub last: u16,
}

impl Block {
    pub fn none() -> Block
        ensures { result ≡ no_block }
    {
        Block { first: 0, last: 0 }
    }
}

// What a bound comes from: the number of the job from which its sum begins, and the blocks of chains 1, 2, and so on, none of the job's own.
#[derive(Clone, Copy)]
pub struct Delay {
    pub from: u16,
    pub blocks: [Block; Delay::CHAINS],
}

impl Delay {
    pub const CHAINS: usize = JobSet::MAX_CHAINS as usize;

    pub fn none() -> Delay
        ensures { result ≡ no_delay }
    {
        let none = Block::none();
        Delay {
            from: 0,
            blocks: [none; Delay::CHAINS],
        }
    }
}

// A bound for each job and what it comes from, 0 in the places beyond.
#[derive(Clone, Copy)]
pub struct Bounds {
    pub bounds: [u64; JobSet::MAX_JOBS],
    pub delays: [Delay; JobSet::MAX_JOBS],
}

impl Bounds {
    // No bound of an accepted set reaches this.
    pub const LIMIT: u64 = 10000000000;
}

// The same, and the rounds with the last one.
#[derive(Clone, Copy)]
pub struct Itr {
    pub bounds: [u64; JobSet::MAX_JOBS],
    pub rounds: u64,
    pub delays: [Delay; JobSet::MAX_JOBS],
}

// Bounds and rounds alone, for whoever prints no names.
#[derive(Clone, Copy)]
pub struct ItrAlone {
    pub bounds: [u64; JobSet::MAX_JOBS],
    pub rounds: u64,
}
