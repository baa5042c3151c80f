// Waveforms as they are.
use jobs::most::most_times;
use jobs::refusal::Refusal;
use jobs::set::JobSet;
use kept_tables::set_of;
use std::io;
use std::rt::Files;
use streams::{front, print};
use texts::refused::ready_to_print;
use waveform::waveform::{MAX_WAVEFORM, write_waveform};

// What writing the waveform of a set with all most times comes to.
pub(crate) fn wave_of(set: JobSet, out: &mut [u8]) -> Result<u32, Refusal> {
    let most = most_times(set);
    write_waveform(set, &most[..set.count.min(JobSet::MAX_JOBS)], out)
}

pub(crate) fn print_wave<R: Files + Print>(rt: &R, name: &[u8]) -> io::Result<()> {
    let mut out = [0u8; MAX_WAVEFORM];
    let answer = wave_of(set_of(rt, name)?, &mut out);
    let length = ready_to_print(answer, &mut out) as usize;
    print(rt, front(&out, length))
}
