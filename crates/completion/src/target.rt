// What the interference on a pair depends on.

// A target: its chain, its urgency, and the span of its pair, open at `from` and closed at `to`.
#[derive(Clone, Copy)]
pub(crate) struct Target {
    pub chain: u64,
    pub urgency: u64,
    pub from: u64,
    pub to: u64,
}
