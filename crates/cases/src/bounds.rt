// Bounds, rounds, slacks and verdicts.
use analysis::answer::Figures;
use analysis::figures::figures;
use analysis::verdict::verdict;
use jobs::refusal::Refusal;
use jobs::set::JobSet;
use kept_tables::set_of;
use std::io;
use std::rt::Files;

pub(crate) fn print_verdict<R: Print>(rt: &R, verdict: Result<bool, Refusal>) -> io::Result<()> {
    match verdict {
        Ok(true) => print!(rt; " yes"),
        Ok(false) => print!(rt; " no"),
        Err(refusal) => print!(rt; " {refusal}"),
    }
}

// By algorithm 1 to 4.
fn print_verdicts<R: Print>(rt: &R, set: JobSet) -> io::Result<()> {
    print!(rt; ", verdicts")?;
    for algorithm in 1..=4 {
        print_verdict(rt, verdict(set, algorithm))?;
    }
    Ok(())
}

// ERT, CJA, ITR and slack of the last six jobs, or of all where there are fewer.
fn print_last<R: Print>(rt: &R, figures: &Figures, count: usize) -> io::Result<()> {
    for place in count.saturating_sub(6)..count.min(JobSet::MAX_JOBS) {
        let (ert, cja, itr) = (figures.ert[place], figures.cja[place], figures.itr[place]);
        let slack = figures.slacks[place];
        print!(rt; " {ert},{cja},{itr},{slack}")?;
    }
    Ok(())
}

pub(crate) fn print_bounds<R: Files + Print>(rt: &R, name: &[u8]) -> io::Result<()> {
    let set = set_of(rt, name)?;
    match figures(set) {
        Err(refusal) => {
            print!(rt; " {refusal}")?;
            print_verdicts(rt, set)
        }
        Ok(figures) => {
            let rounds = figures.rounds;
            print!(rt; " rounds {rounds}")?;
            print_verdicts(rt, set)?;
            print!(rt; ", bounds")?;
            print_last(rt, &figures, set.count)
        }
    }
}
