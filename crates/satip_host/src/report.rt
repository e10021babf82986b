//! Lines on standard error.

use crate::counting::Count;
use jiff::Timestamp;
use std::env::Env;
use std::fmt::Display;
use std::io::Write;
use std::os::unix::fs::MetadataExt;
use std::sync::atomic::{AtomicU64, Ordering};
use std::time::{Clock, SystemTime, UNIX_EPOCH};
use std::{fmt, fs};

// The least time between two lines of one kind, in seconds.
const APART_S: u64 = 60;

// The variable that names the journal's stream, and the file of standard error.
const JOURNAL_STREAM: &str = "JOURNAL_STREAM";

const STANDARD_ERROR: &str = "/proc/self/fd/2";

// The room for that variable's value: two numbers and a colon.
const ROOM: usize = 64;

// The priority of a line (syslog(3)).
#[derive(Clone, Copy)]
enum Priority {
    Error = 3,
    Warning = 4,
    Info = 6,
}

/// A time in UTC, shown in the form of RFC 3339 with whole seconds.
#[derive(Clone, Copy)]
pub struct UtcTime {
    time: Timestamp,
}

impl UtcTime {
    /// Reads the system's time; `None` if the clock can't be read.
    pub fn read(rt: &HostRuntime) -> Option<UtcTime> {
        let since = SystemTime::now(rt).ok()?.duration_since(UNIX_EPOCH).ok()?;
        let time = Timestamp::from_second(i64::try_from(since.as_secs()).ok()?).ok()?;
        Some(UtcTime { time })
    }
}

impl fmt::Display for UtcTime {
    fn fmt<W: fmt::Write>(&self, f: &mut fmt::Formatter<W>) -> fmt::Result {
        let time = self.time;
        write!(f, "{time}")
    }
}

// Returns whether standard error is the stream of the journal that `JOURNAL_STREAM` names by device
// and inode (systemd.exec(5)).
fn is_journal(rt: &HostRuntime) -> bool {
    let mut buf = [0; ROOM];
    let Ok(count) = rt.var(JOURNAL_STREAM, &mut buf) else {
        return false;
    };
    let Ok(file) = fs::metadata(rt, STANDARD_ERROR) else {
        return false;
    };
    let (device, inode) = (file.dev(), file.ino());
    match format!(in rt.alloc(); "{device}:{inode}") {
        Ok(name) => name.as_bytes() == &buf[..count],
        Err(_) => false,
    }
}

// Writes one line to standard error, by one call. To the journal, it is the priority and the text;
// else the time in UTC in the form of RFC 3339, if the clock can be read, and the text. Ignores a
// fault of standard error. Writes nothing if out of memory.
fn write_line<D: Display + Drop>(rt: &HostRuntime, priority: Priority, text: D) {
    let alloc = rt.alloc();
    let line = if is_journal(rt) {
        let level = priority as u8;
        format!(in alloc; "<{level}>{text}\n")
    } else {
        match UtcTime::read(rt) {
            Some(time) => format!(in alloc; "{time}: {text}\n"),
            None => format!(in alloc; "{text}\n"),
        }
    };
    if let Ok(line) = line {
        let _ = rt.stderr().write_all(line.as_bytes());
    }
}

/// Logs what the operator has to mend.
pub fn report_line<D: Display + Drop>(rt: &HostRuntime, text: D) {
    write_line(rt, Priority::Error, text);
}

/// Logs what a client or the network did.
pub fn report_warning<D: Display + Drop>(rt: &HostRuntime, text: D) {
    write_line(rt, Priority::Warning, text);
}

/// Logs what the server does.
pub fn report_notice<D: Display + Drop>(rt: &HostRuntime, text: D) {
    write_line(rt, Priority::Info, text);
}

/// Limits lines of one kind to one a minute. Several threads may share it.
#[derive(Drop)]
pub struct Throttle {
    next_s: AtomicU64,
    lines: Count,
}

impl Throttle {
    /// Creates a throttle that has allowed no line yet.
    pub fn new() -> Throttle {
        Throttle {
            next_s: AtomicU64::new(0),
            lines: Count::new(),
        }
    }

    /// Returns the count of lines that were allowed.
    pub fn lines(&self) -> u64 {
        self.lines.get()
    }

    /// Returns whether a line may be written now; if so, the next one may follow after a minute.
    /// Returns false if the clock can't be read.
    pub fn is_due(&self, rt: &HostRuntime) -> bool {
        let Ok(moment) = rt.monotonic() else {
            return false;
        };
        let now_s = moment.as_secs();
        let due_s = self.next_s.load(Ordering::SeqCst);
        if now_s < due_s {
            return false;
        }
        let next_s = now_s.saturating_add(APART_S);
        let is_due = self
            .next_s
            .compare_exchange(due_s, next_s, Ordering::SeqCst, Ordering::SeqCst)
            .is_ok();
        if is_due {
            self.lines.add(1);
        }
        is_due
    }
}
