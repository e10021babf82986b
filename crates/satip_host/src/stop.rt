//! A server that is asked to end by a file.

use crate::counting::Count;
use crate::report::{report_line, report_notice};
use crate::shown::Shown;
use satip_base::{Text, read_number};
use std::io::Read;
use std::sync::atomic::{AtomicBool, AtomicU64, Ordering};
use std::time::Clock;
use std::{fmt, fs};

// The time between two looks for the file, in milliseconds.
const LOOK_MS: u64 = 1000;

// The most seconds that connections may have left.
const MOST_S: u64 = 86_400;

// The count of bytes of the file that are read.
const HEAD: usize = 64;

// No moment.
const NEVER: u64 = u64::MAX;

/// The file whose presence asks a server to end. It is looked for at most once a second, by the
/// threads that wait for clients. Once it was there the server ends, also if it is removed.
#[derive(Drop)]
pub struct Stop {
    rt: HostRuntime,
    name: Text,
    // The moment of the next look, in milliseconds of the monotonic clock.
    next_ms: AtomicU64,
    asked: AtomicBool,
    // The moment at which connections end.
    end_ms: AtomicU64,
    connections: AtomicU64,
    told: AtomicBool,
    lines: Count,
}

impl Stop {
    /// Creates the stop of a server that has no connection.
    pub fn by_file(rt: HostRuntime, name: Text) -> Stop {
        Stop {
            rt,
            name,
            next_ms: AtomicU64::new(0),
            asked: AtomicBool::new(false),
            end_ms: AtomicU64::new(NEVER),
            connections: AtomicU64::new(0),
            told: AtomicBool::new(false),
            lines: Count::new(),
        }
    }

    /// Returns the count of lines on the end of the server.
    pub fn lines(&self) -> u64 {
        self.lines.get()
    }

    /// Returns the name of the file.
    pub fn into_name(self) -> Text {
        self.name
    }

    fn path(&self) -> &str {
        str::from_utf8(self.name.bytes()).unwrap_or("")
    }

    /// Returns whether the file is there.
    pub fn is_there(&self) -> bool {
        fs::metadata(&self.rt, self.path()).is_ok()
    }

    /// Returns whether the server was asked to end. Looks for the file if that is due.
    pub fn is_asked(&self) -> bool {
        if self.asked.load(Ordering::SeqCst) {
            return true;
        }
        let Some(now_ms) = self.now_ms() else {
            return false;
        };
        if !self.is_due(now_ms) || !self.is_there() {
            return false;
        }
        self.ask(now_ms);
        true
    }

    /// Returns whether the connections have to end now.
    pub fn is_over(&self) -> bool {
        if !self.is_asked() {
            return false;
        }
        let end_ms = self.end_ms.load(Ordering::SeqCst);
        match self.now_ms() {
            Some(now_ms) => end_ms <= now_ms,
            None => false,
        }
    }

    /// Counts a connection that was accepted.
    pub fn enter(&self) {
        self.connections.fetch_add(1, Ordering::SeqCst);
    }

    /// Counts a connection that has ended. Logs the end of the last one of a server that was asked
    /// to end.
    pub fn leave(&self) {
        let left = self.connections.fetch_sub(1, Ordering::SeqCst);
        if left == 1 && self.asked.load(Ordering::SeqCst) {
            self.tell_end();
        }
    }

    fn now_ms(&self) -> Option<u64> {
        u64::try_from(self.rt.monotonic().ok()?.as_millis()).ok()
    }

    // Returns whether this thread is to look for the file now.
    fn is_due(&self, now_ms: u64) -> bool {
        let next_ms = self.next_ms.load(Ordering::SeqCst);
        if now_ms < next_ms {
            return false;
        }
        let later_ms = now_ms.saturating_add(LOOK_MS);
        self.next_ms
            .compare_exchange(next_ms, later_ms, Ordering::SeqCst, Ordering::SeqCst)
            .is_ok()
    }

    // Notes that the file is there, and logs it.
    fn ask(&self, now_ms: u64) {
        let limit_s = match self.read_limit() {
            Limit::None => None,
            Limit::Seconds(seconds) => Some(seconds),
            Limit::Other => {
                let name = Shown(&self.name);
                self.lines.add(1);
                report_line(
                    &self.rt,
                    format_args!("{name} has no number of seconds up to 86400 on its first line"),
                );
                None
            }
        };
        let end_ms = match limit_s {
            Some(seconds) => now_ms.saturating_add(seconds.saturating_mul(1000)),
            None => NEVER,
        };
        self.end_ms.store(end_ms, Ordering::SeqCst);
        if self.asked.swap(true, Ordering::SeqCst) {
            return;
        }
        let left = self.connections.load(Ordering::SeqCst);
        let name = &self.name;
        self.lines.add(1);
        report_notice(
            &self.rt,
            Asked {
                name,
                left,
                limit_s,
            },
        );
        if left == 0 {
            self.tell_end();
        }
    }

    // Reads the start of the file, if it is a regular one.
    fn read_limit(&self) -> Limit {
        let mut head = [0; HEAD];
        match fs::metadata(&self.rt, self.path()) {
            Ok(file) if file.is_file() => {}
            _ => return Limit::Other,
        }
        let Ok(mut file) = fs::open(&self.rt, self.path()) else {
            return Limit::Other;
        };
        match file.read(&mut head) {
            Ok(count) => limit_of(&head[..count]),
            Err(_) => Limit::Other,
        }
    }

    fn tell_end(&self) {
        if !self.told.swap(true, Ordering::SeqCst) {
            self.lines.add(1);
            report_notice(&self.rt, "no connection is left, so the server ends");
        }
    }
}

// What the first line of a file says.
#[derive(Clone, Copy, Debug, PartialEq, Eq)]
pub(crate) enum Limit {
    // Nothing.
    None,
    // For how many seconds connections may go on.
    Seconds(u64),
    // Something else.
    Other,
}

// Returns what the first line of a text says.
pub(crate) fn limit_of(text: &[u8]) -> Limit {
    let line = match text.iter().position(|byte| *byte == 10) {
        Some(end) => text.split_at(end.min(text.len())).0,
        None => text,
    };
    match line.trim_ascii() {
        [] => Limit::None,
        digits => match read_number(digits, MOST_S) {
            Some(seconds) => Limit::Seconds(seconds),
            None => Limit::Other,
        },
    }
}

// The line on a server that was asked to end.
#[derive(Drop)]
struct Asked<'a> {
    name: &'a Text,
    left: u64,
    limit_s: Option<u64>,
}

impl fmt::Display for Asked<'_> {
    fn fmt<W: fmt::Write>(&self, f: &mut fmt::Formatter<W>) -> fmt::Result {
        let (name, left) = (Shown(self.name), self.left);
        write!(f, "asked to end by {name}; connections left: {left}, ")?;
        match self.limit_s {
            Some(seconds) => write!(f, "for {seconds} s at most"),
            None => f.write_str("until they end"),
        }
    }
}
