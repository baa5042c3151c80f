// The ITR bounds, and the number of rounds that they take.
ghost use Rattle.std.specs.Prelude.{◌≡◌, ◌≤◌};
ghost use Rattle.laws.specs.Words.{same_up_to, padded};
ghost use Rattle.jobs.specs.Limits.{max_jobs};
ghost use Rattle.theory.specs.Bounds.{itr as theory_itr};
ghost use Rattle.completion.specs.Answers.{itr_of, itr_alone};
ghost use Rattle.theory.proofs.{Columns.lent, ChainWindow.bounds_in, Refilling.Spare, RisingBounds.Upwards, SweptPairs.Ready, SweptPairs.Rounded};

use crate::answer::ItrAlone;
use crate::carried::Carried;
use crate::round::round;
use crate::start::start;
use crate::table::Table;
use jobs::check::check;
use jobs::refusal::Refusal;
use jobs::set::JobSet;

// One round from the bounds before, into an array that has nothing behind the jobs; whether it changed no bound.
fn repeats(
    table: &Table,
    bound: &[u64; JobSet::MAX_JOBS],
    carried: &mut Carried,
    next: &mut [u64; JobSet::MAX_JOBS],
) -> bool
    requires { let t = table.now in
        Upwards (lent t.count t.columns) (bounds_in bound.now) × Ready t.count t.columns carried.old.released carried.old.delay × Spare t.count next.old }
    ensures { let t = table.now in
        (result ≡ same_up_to t.count next.new bound.now) × Rounded t.count t.columns bound.now carried.new.released carried.new.delay next.new }
{
    round(table, bound, carried, next);
    next[..table.count] == bound[..table.count]
}

// Rounds until one changes no bound; that one counts. They go to and fro between two arrays, which are not on the stack while the set is checked and laid out.
#[inline(never)]
fn settle(table: &Table) -> ItrAlone
    ensures { let answer = theory_itr (lent table.now.count table.now.columns) in result ≡ record { bounds = padded max_jobs 0 answer.bounds; rounds = answer.rounds } }
{
    let mut carried = Carried::new();
    let mut bounds = [0u64; JobSet::MAX_JOBS];
    let mut next = [0u64; JobSet::MAX_JOBS];
    start(table, &mut bounds);
    let mut rounds: u64 = 0;
    // Which round is the last is known only once it changes no bound, so that no range counts them.
    loop {
        let taken = rounds + 1;
        if repeats(table, &bounds, &mut carried, &mut next) {
            return ItrAlone {
                bounds: next,
                rounds: taken,
            };
        }
        rounds = taken + 1;
        if repeats(table, &next, &mut carried, &mut bounds) {
            return ItrAlone { bounds, rounds };
        }
    }
}

// The ITR bounds of all jobs and the number of rounds alone.
pub fn itr_alone(set: JobSet) -> Result<ItrAlone, Refusal>
    ensures { result ≡ itr_alone (itr_of set) }
{
    check(set)?;
    let table = Table::of(set);
    Ok(settle(&table))
}
