// Answers as C sees them.
ghost use Rattle.std.specs.Prelude.{◌≡◌, ℕ, ◌≤◌};
ghost use Rattle.jobs.specs.Limits.{max_jobs, max_chains};
ghost use Rattle.machine.specs.Ticks.{last_time};
ghost use Rattle.cudlomer.specs.Codes.{refusal_code, checked_code, written_code, verdict_code, ticked_code, traced_code};

use jobs::refusal::Refusal;
use machine::step::Ticked;
use machine::trace::Traced;

// By how much the code of a job that ran grows from chain to chain.
pub const CHAIN_STEP: u64 = 65536;

// A refusal.
pub(crate) fn negated(refusal: Refusal) -> i64
    ensures { result ≡ refusal_code refusal }
{
    0 - (refusal.number() as i64)
}

// A number where a check passes.
pub(crate) fn checked_code(check: Result<(), Refusal>, number: u64) -> i64
    requires { number ≤ last_time }
    ensures { result ≡ checked_code check number }
{
    match check {
        Ok(()) => number as i64,
        Err(refusal) => negated(refusal),
    }
}

// What writing a text came to.
pub(crate) fn written_code(answer: Result<u32, Refusal>) -> i64
    ensures { result ≡ written_code answer }
{
    match answer {
        Ok(bytes) => bytes as i64,
        Err(refusal) => negated(refusal),
    }
}

// A verdict.
pub(crate) fn verdict_code(verdict: Result<bool, Refusal>) -> i64
    ensures { result ≡ verdict_code verdict }
{
    match verdict {
        Ok(true) => 1,
        Ok(false) => 0,
        Err(refusal) => negated(refusal),
    }
}

// What a tick of jobs with small numbers answers.
pub(crate) fn ticked_code(ticked: Result<Ticked, Refusal>) -> i64
    requires { (chain job : ℕ) → ticked ≡ Ok (Ticked.Ran chain job) → (chain ≤ max_chains) × (job ≤ max_jobs) }
    ensures { result ≡ ticked_code ticked }
{
    match ticked {
        Ok(Ticked::Ran { chain, job }) => (chain * CHAIN_STEP + job) as i64,
        Ok(Ticked::Idle) => 0,
        Ok(Ticked::Finished) => 1,
        Err(refusal) => negated(refusal),
    }
}

// What a trace of few entries came to.
pub(crate) fn traced_code(traced: Result<Traced, Refusal>) -> i64
    requires { (t : Traced) → traced ≡ Ok t → t.entries ≤ last_time }
    ensures { result ≡ traced_code traced }
{
    match traced {
        Ok(traced) => traced.entries as i64,
        Err(refusal) => negated(refusal),
    }
}
