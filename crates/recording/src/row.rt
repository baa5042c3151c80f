// A row of a recording, and its order among the others.
ghost use Rattle.std.specs.Prelude.{◌≡◌};
ghost use Rattle.recording.specs.{Rows.no_row, Rows.follows, Reading.is_next_row};

// The job at a place of the table ran in the ticks from `from` up to `to`.
#[derive(Clone, Copy)]
pub struct Row {
    pub at: usize,
    pub from: u64,
    pub to: u64,
}

impl Row {
    // What stands in a recording where there is no row.
    pub fn none() -> Row
        ensures { result ≡ no_row }
    {
        Row {
            at: 0,
            from: 0,
            to: 0,
        }
    }
}

// Whether a row comes after another: it does not begin before that one's end, and where it begins there it is of another job.
fn is_following(before: Row, row: Row) -> bool
    ensures { result ≡ follows before row }
{
    let after = before.to <= row.from;
    let on = (before.to == row.from) & (before.at == row.at);
    after & !on
}

// Whether a row of a table of so many jobs may come after n others, the last of which is last.
pub(crate) fn is_next_row(jobs: usize, n: usize, last: Row, row: Row) -> bool
    ensures { result ≡ is_next_row jobs n last row }
{
    let inside = row.at < jobs;
    let long = row.from < row.to;
    let first = n == 0;
    let following = is_following(last, row);
    inside & long & (first | following)
}
