//! The ends of jobs.

ghost use Rattle.std.specs.Prelude.{◌≡◌};
ghost use Rattle.satip_jobs.specs.Ends.{worse};

/// How a job, or a run of all jobs, ended.
#[derive(Clone, Copy, Debug, PartialEq, Eq)]
pub enum ServeEnd {
    /// All doors ended, and pumps and ticker were stopped.
    Served,
    /// The doors of a worker failed.
    DoorsFault,
    /// The history is full.
    HistoryFull,
}

impl ServeEnd {
    /// Returns the worse of two ends: a full history, else a fault of doors.
    pub fn and(self, other: ServeEnd) -> ServeEnd
        ensures worse { result ≡ worse self other }
    {
        match self {
            ServeEnd::Served => other,
            ServeEnd::DoorsFault => match other {
                ServeEnd::Served => ServeEnd::DoorsFault,
                ServeEnd::DoorsFault => ServeEnd::DoorsFault,
                ServeEnd::HistoryFull => ServeEnd::HistoryFull,
            },
            ServeEnd::HistoryFull => ServeEnd::HistoryFull,
        }
    }
}
