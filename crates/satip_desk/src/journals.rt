//! The journals of jobs.

ghost use Rattle.std.specs.Prelude.{◌≡◌};

use satip_base::{Put, Sink};

/// A sink to which the journal of one job is written.
pub trait JobSink {
    ghost use Rattle.std.specs.Prelude.{ℕ};
    ghost use Rattle.satip_base.specs.Streams.{Drain, Puts};

    // The condition under which contracts say which bytes were sent: always true, or never.
    ghost tells: { Type 0 };

    // The job.
    ghost job: { Self → ℕ };

    // The bytes that were sent, and the count of faults.
    ghost drain: { Self → Drain };

    /// Sends bytes after those that were sent before. It stays the sink of its job.
    fn put(&mut self, bytes: &[u8]) -> Put
        ensures puts { Puts tells (drain self.old) (drain self.new) bytes.now result }
        ensures of_job { job self.new ≡ job self.old };
}

/// A sink as that of a job.
#[derive(Drop)]
pub struct JobJournal<S> {
    job: u64,
    sink: S,
}

impl<S> JobJournal<S> {
    /// Makes a sink that of a job.
    pub fn new(job: u64, sink: S) -> JobJournal<S>
        ensures job { result.job ≡ job }
        ensures sink { result.sink ≡ sink }
    {
        JobJournal { job, sink }
    }

    /// Returns the job.
    pub fn job(&self) -> u64
        ensures job { result ≡ self.now.job }
    {
        self.job
    }

    /// Returns the sink.
    pub fn sink(&self) -> &S
        ensures sink { result.now ≡ self.now.sink }
    {
        &self.sink
    }
}

impl<S: Sink> JobSink for JobJournal<S> {
    ghost tells = { S.tells };

    ghost job = { λ j. j.job };

    ghost drain = { λ j. S.drain j.sink };

    fn put(&mut self, bytes: &[u8]) -> Put {
        self.sink.put(bytes)
    }
}
