// How a refusal and a job print.
ghost use Rattle.std.specs.Prelude.{Some};
ghost use Rattle.jobs.specs.Displays.{refusal_shown, job_shown};

use crate::job::Job;
use crate::refusal::Refusal;
use std::fmt;

// The word of a refusal and its number.
impl fmt::Display for Refusal {
    ghost output = { λ refusal. Some (refusal_shown refusal) };

    fn fmt<W: fmt::Write>(&self, f: &mut fmt::Formatter<W>) -> fmt::Result {
        let number = self.number();
        write!(f, "refused,{number}")
    }
}

// A job's numbers in the order of a table's columns.
impl fmt::Display for Job {
    ghost output = { λ job. Some (job_shown job) };

    fn fmt<W: fmt::Write>(&self, f: &mut fmt::Formatter<W>) -> fmt::Result {
        let (chain, job, release, priority) = (self.chain, self.job, self.release, self.priority);
        let (least, most, deadline) = (self.least, self.most, self.deadline);
        write!(
            f,
            "{chain},{job},{release},{priority},{least},{most},{deadline}"
        )
    }
}
