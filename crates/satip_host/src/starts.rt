//! The count of a server's jobs that have begun.

ghost use Rattle.std.specs.Prelude.{◌≡◌, ◌<◌, ◌≤◌, ◌-◌, ◌↔◌, IsSome, IfSome};

use crate::report::report_line;
use std::alloc::AllocError;
use std::fmt;
use std::sync::Arc;
use std::sync::atomic::{AtomicBool, AtomicU64, Ordering};
use std::time::Clock;

// The time after the first job by which the others are to have begun, in seconds.
const PATIENCE_S: u64 = 5;

/// The count of a server's jobs, and of those that have begun. If the system starts no thread for a
/// job, it begins after another has ended, or never.
#[derive(Drop)]
pub struct Starts {
    jobs: u64,
    begun: AtomicU64,
    due_s: AtomicU64,
    told: AtomicBool,
}

impl Starts {
    /// Creates the count for `jobs` jobs, of which none has begun.
    pub fn expect(jobs: u64) -> Starts {
        Starts {
            jobs,
            begun: AtomicU64::new(0),
            due_s: AtomicU64::new(u64::MAX),
            told: AtomicBool::new(false),
        }
    }

    // Counts a job that begins at this second of the monotonic clock.
    pub(crate) fn begin(&self, now_s: u64) {
        if self.begun.fetch_add(1, Ordering::SeqCst) == 0 {
            let due_s = now_s.saturating_add(PATIENCE_S);
            self.due_s.store(due_s, Ordering::SeqCst);
        }
    }

    /// Returns the count of lines on jobs that haven't begun.
    pub fn lines(&self) -> u64 {
        u64::from(self.told.load(Ordering::SeqCst))
    }

    // Returns whether nothing is left to report.
    fn is_settled(&self) -> bool {
        self.begun.load(Ordering::SeqCst) >= self.jobs || self.told.load(Ordering::SeqCst)
    }

    // Returns how many late jobs are to be reported at this second. Returns them once.
    pub(crate) fn untold(&self, now_s: u64) -> Option<u64> {
        let begun = self.begun.load(Ordering::SeqCst);
        let due_s = self.due_s.load(Ordering::SeqCst);
        let late = late_jobs(self.jobs, begun, now_s, due_s)?;
        match self.told.swap(true, Ordering::SeqCst) {
            true => None,
            false => Some(late),
        }
    }
}

// Returns how many jobs have not begun though they are due.
fn late_jobs(jobs: u64, begun: u64, now_s: u64, due_s: u64) -> Option<u64>
    ensures late { IsSome result ↔ ((begun < jobs) × (due_s ≤ now_s)) }
    ensures count { IfSome result (λ count. count ≡ jobs - begun) }
{
    if begun >= jobs || now_s < due_s {
        return None;
    }
    Some(jobs - begun)
}

/// The share of one job in the count of its server.
#[derive(Drop)]
pub struct Start {
    starts: Arc<Starts>,
    counted: bool,
}

impl Start {
    /// Creates the share of a job that begins with its first step.
    pub fn counting(starts: &Arc<Starts>) -> Result<Start, AllocError> {
        Ok(Start {
            starts: Arc::try_clone(starts)?,
            counted: false,
        })
    }

    /// Creates the share of a job that is counted elsewhere.
    pub fn watching(starts: &Arc<Starts>) -> Result<Start, AllocError> {
        Ok(Start {
            starts: Arc::try_clone(starts)?,
            counted: true,
        })
    }

    /// Counts the job at its first step. Reports on standard error, once for a server, if jobs have
    /// not begun about 5 s after the first; never if the clock can't be read.
    pub fn step(&mut self, rt: &HostRuntime) {
        if self.counted && self.starts.is_settled() {
            return;
        }
        let Ok(moment) = rt.monotonic() else {
            return;
        };
        let now_s = moment.as_secs();
        if !self.counted {
            self.counted = true;
            self.starts.begin(now_s);
        }
        if let Some(late) = self.starts.untold(now_s) {
            let jobs = self.starts.jobs;
            report_line(rt, Missing { late, jobs });
        }
    }
}

// The report of jobs that have not begun.
#[derive(Drop)]
struct Missing {
    late: u64,
    jobs: u64,
}

impl fmt::Display for Missing {
    fn fmt<W: fmt::Write>(&self, f: &mut fmt::Formatter<W>) -> fmt::Result {
        let (late, jobs) = (self.late, self.jobs);
        write!(
            f,
            "{late} of {jobs} jobs have not begun, as the system starts no thread for them;"
        )?;
        f.write_str(" clients may wait, or get no packets")?;
        f.write_str(" (for more threads: ulimit -u, TasksMax= of a unit; then start satip anew)")
    }
}
