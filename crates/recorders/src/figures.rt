// Figures of the jobs, in columns by place.
ghost use Rattle.std.specs.Prelude.{◌≡◌, ◌<◌};
ghost use Rattle.jobs.specs.Limits.{max_jobs};
ghost use Rattle.theory.proofs.Columns.{figure as theory_figure};
ghost use Rattle.legality.proofs.Judging.{column_count};

use jobs::set::JobSet;

// A column for each of three figures of a job.
pub type Figures = [[u64; JobSet::MAX_JOBS]; COLUMNS];

pub const COLUMNS: usize = 3;

// The figure of column k at place i.
pub(crate) fn figure(figures: &Figures, k: usize, i: usize) -> u64
    requires { (k < column_count) × (i < max_jobs) }
    ensures { result ≡ theory_figure figures.now k i }
{
    figures[k][i]
}
