// Where two recordings begin to differ.
ghost use Rattle.std.specs.Prelude.{◌≡◌, ◌≤◌, [], ◌∷◌};
ghost use Rattle.recording.specs.Reading.{max_rows, rows_of};
ghost use Rattle.legality.specs.Differences.{first_difference};

use recording::reading::Recording;
use recording::row::Row;

// Where two rows differ: where the sooner begins, where they begin or are of different jobs, else where the sooner ends.
fn row_difference(first: Row, second: Row) -> Option<u64>
    ensures { result ≡ first_difference (first ∷ []) (second ∷ []) }
{
    let same_begin = first.from == second.from;
    let same_job = first.at == second.at;
    if !(same_begin & same_job) {
        return Some(first.from.min(second.from));
    }
    if first.to != second.to {
        return Some(first.to.min(second.to));
    }
    None
}

// The first tick at which two recordings show different work. Where one recording ends before the other, they differ from the other's next row on.
pub(crate) fn first_difference(first: Recording, second: Recording) -> Option<u64>
    requires { (first.count ≤ max_rows) × (second.count ≤ max_rows) }
    ensures { result ≡ first_difference (rows_of first) (rows_of second) }
{
    let both = first.count.min(second.count);
    for n in 0..both {
        if let Some(tick) = row_difference(first.rows[n], second.rows[n]) {
            return Some(tick);
        }
    }
    if both < first.count {
        return Some(first.rows[both].from);
    }
    if both < second.count {
        return Some(second.rows[both].from);
    }
    None
}
