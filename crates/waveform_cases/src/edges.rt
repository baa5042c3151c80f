// Waveforms into buffers at the edge of refusal 9.
use crate::waves::wave_of;
use jobs::set::JobSet;
use kept_tables::set_of;
use std::io;
use std::rt::Files;
use waveform::waveform::MAX_WAVEFORM;

// How long the buffer is, what a waveform into it answers, and the first byte that it then holds.
fn print_written<R: Print>(rt: &R, set: JobSet, out: &mut [u8]) -> io::Result<()> {
    let room = out.len();
    match wave_of(set, out) {
        Err(refusal) => print!(rt; "{room} bytes {refusal}")?,
        Ok(bytes) => print!(rt; "{room} bytes hold {bytes}")?,
    }
    if let Some(first) = out.first() {
        print!(rt; ", first {first}")?;
    }
    print!(rt; "\n")
}

// A waveform into a buffer of this many bytes, each of them 7 before.
fn print_into<R: Print>(rt: &R, set: JobSet, room: usize) -> io::Result<()> {
    let mut out = [7u8; MAX_WAVEFORM];
    if room <= MAX_WAVEFORM {
        print_written(rt, set, &mut out[..room])?;
    }
    Ok(())
}

pub(crate) fn print_edge<R: Files + Print>(rt: &R, name: &[u8]) -> io::Result<()> {
    let set = set_of(rt, name)?;
    let mut out = [0u8; MAX_WAVEFORM];
    if let Ok(bytes) = wave_of(set, &mut out) {
        let bytes = bytes as usize;
        if 0 < bytes {
            print_into(rt, set, bytes - 1)?;
        }
        print_into(rt, set, bytes)?;
    }
    Ok(())
}
