// How many digits a number has.
ghost use Rattle.std.specs.Prelude.{◌≡◌};
ghost use Rattle.decimal.specs.Digits.{digit_count};

// How many digits value has, by the first power of ten that is above it.
// 10 to the power of 19 is the last one that a u64 holds, so a value from there on has 20 digits.
pub fn digit_count(value: u64) -> usize
    ensures { result ≡ digit_count value }
{
    if value < 10 {
        return 1;
    }
    if value < 100 {
        return 2;
    }
    if value < 1_000 {
        return 3;
    }
    if value < 10_000 {
        return 4;
    }
    if value < 100_000 {
        return 5;
    }
    if value < 1_000_000 {
        return 6;
    }
    if value < 10_000_000 {
        return 7;
    }
    if value < 100_000_000 {
        return 8;
    }
    if value < 1_000_000_000 {
        return 9;
    }
    if value < 10_000_000_000 {
        return 10;
    }
    if value < 100_000_000_000 {
        return 11;
    }
    if value < 1_000_000_000_000 {
        return 12;
    }
    if value < 10_000_000_000_000 {
        return 13;
    }
    if value < 100_000_000_000_000 {
        return 14;
    }
    if value < 1_000_000_000_000_000 {
        return 15;
    }
    if value < 10_000_000_000_000_000 {
        return 16;
    }
    if value < 100_000_000_000_000_000 {
        return 17;
    }
    if value < 1_000_000_000_000_000_000 {
        return 18;
    }
    if value < 10_000_000_000_000_000_000 {
        return 19;
    }
    20
}
