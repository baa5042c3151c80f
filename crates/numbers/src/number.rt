// One number of lent memory.
ghost use Rattle.std.specs.Prelude.{◌≡◌};
ghost use Rattle.laws.specs.Words.{number_at};

// The number at a place, 0 beyond the last.
pub fn number_at(numbers: &[u64], at: usize) -> u64
    ensures { result ≡ number_at numbers.now at }
{
    numbers.get(at).copied().unwrap_or(0)
}
