// The reasons for which an operation is refused, and the number of each.
ghost use Rattle.std.specs.Prelude.{◌≡◌};
ghost use Rattle.jobs.specs.Refusals.{number_of};

#[derive(Clone, Copy, PartialEq, Eq)]
pub enum Refusal {
    TextTooLong = 1,
    NotHeader = 2,
    MalformedLine = 3,
    TooManyRecords = 4,
    OutOfOrder = 5,
    OutOfLimits = 6,
    NoRecord = 7,
    RunningTimes = 8,
    ShortBuffer = 9,
    UnknownAlgorithm = 10,
    ImpossibleState = 11,
    PriorityOutOfLimits = 12,
    LeastOrMostOutOfLimits = 13,
    LeastAboveMost = 14,
    MalformedRecording = 15,
    TooManyRows = 16,
}

impl Refusal {
    // By its number C and the texts tell a refusal.
    pub fn number(self) -> u8
        ensures { result ≡ number_of self }
    {
        self as u8
    }
}
