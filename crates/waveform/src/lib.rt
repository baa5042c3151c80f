// Waveforms: the trace of a run as a value change dump, written into a lent buffer.
#![tactic(auto)]

mod changes;
mod dump;
mod entries;
mod lines;
pub mod waveform;
mod wires;
