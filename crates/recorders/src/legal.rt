// Whether a recording is legal.
ghost use Rattle.std.specs.Prelude.{◌≡◌};
ghost use Rattle.jobs.specs.Jobs.{jobs_of};
ghost use Rattle.theory.specs.Table.{table_of};
ghost use Rattle.recording.specs.Reading.{rows_of};
ghost use Rattle.legality.specs.Legality.{legal};
ghost use Rattle.legality.proofs.Judging.{Judged};

use crate::course::course_of;
use crate::fitting::jobs_fit;
use crate::priority::rows_fit;
use crate::waiting::waiting_of;
use jobs::set::JobSet;
use recording::reading::Recording;

// The jobs are looked at first: the time from which a job is ready is known only where they fit.
pub(crate) fn is_legal(set: JobSet, recording: Recording) -> bool
    requires { Judged (jobs_of set) recording }
    ensures { result ≡ legal (table_of (jobs_of set)) (rows_of recording) }
{
    let course = course_of(recording);
    let fit = jobs_fit(set, &course);
    if !fit {
        return false;
    }
    let waiting = waiting_of(set, &course);
    rows_fit(recording, set.count, &waiting)
}
