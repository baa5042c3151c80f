// A job: a record of the table.
ghost use Rattle.std.specs.Prelude.{◌≡◌};
ghost use Rattle.jobs.specs.Jobs.{no_job, urgency_of};

#[derive(Clone, Copy)]
pub struct Job {
    pub chain: u64,
    pub job: u64,
    pub release: u64,
    pub priority: u64,
    pub least: u64,
    pub most: u64,
    pub deadline: u64,
}

impl Job {
    pub const MAX_RELEASE: u64 = 1000000000;

    pub const MAX_PRIORITY: u64 = 255;

    pub const MAX_TIME: u64 = 1000000;

    pub const MAX_DEADLINE: u64 = 4000000000;

    // What stands in a set where there is no job.
    pub fn none() -> Job
        ensures { result ≡ no_job }
    {
        Job {
            chain: 0,
            job: 0,
            release: 0,
            priority: 0,
            least: 0,
            most: 0,
            deadline: 0,
        }
    }

    // How urgent a job is; a greater number is more urgent.
    pub fn urgency(job: Job) -> u64
        ensures { result ≡ urgency_of job }
    {
        job.priority
    }
}
