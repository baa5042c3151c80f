// What a job takes over from its predecessor, where it has one.
ghost use Rattle.std.specs.Prelude.{◌≡◌};
ghost use Rattle.theory.proofs.Predecessors.{not_before};

// A time of a job that does not come before one of its predecessor; the job before it in the table is of chain `last`.
pub(crate) fn not_before(last: u64, chain: u64, time: u64, predecessor: u64) -> u64
    ensures { result ≡ not_before last chain time predecessor }
{
    if last == chain {
        return time.max(predecessor);
    }
    time
}
