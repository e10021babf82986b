//! Writes the status file of a server, once a second.

use crate::fault::KitsFault;
use crate::status::{Connection, Connections, Destination, FrontEnd, Status};
use satip_base::Text;
use satip_datagrams::SentCounts;
use satip_host::{Shown, Starts, Stopwatch, Throttle, UtcTime, report_line};
use satip_playout::{Named, Progress};
use satip_real::{Listeners, Obstacles, Visits};
use std::alloc::{AllocError, Global};
use std::sync::Arc;
use std::thread::{Builder, Threads};
use std::time::{Clock, Duration};
use std::{fmt, fs, io, thread};

// The time between two writes.
const EVERY_MS: u64 = 1000;

/// What the threads of a server count. Each count is written by the thread whose work it counts.
#[derive(Drop)]
pub(crate) struct Counts {
    /// Those of each worker; none if nobody watches the server.
    pub(crate) visits: Vec<Arc<Visits>>,
    /// Those of the outlets.
    pub(crate) sent: Arc<SentCounts>,
    /// Those of each front end.
    pub(crate) fronts: Vec<Arc<Progress>>,
}

impl Counts {
    /// Creates the counts of a server of this count of workers, with a front end for each of
    /// `fronts`, whose recordings follow their clocks if it `paces`.
    pub(crate) fn new(
        alloc: Global,
        workers: u16,
        fronts: usize,
        paces: bool,
    ) -> Result<Counts, KitsFault> {
        let mut visits = Vec::new(alloc);
        for _ in 0..workers {
            visits.push(Arc::new(alloc, Visits::new())?)?;
        }
        let mut played = Vec::new(alloc);
        for _ in 0..fronts {
            played.push(Arc::new(alloc, Progress::new(paces))?)?;
        }
        Ok(Counts {
            visits,
            sent: Arc::new(alloc, SentCounts::new(alloc)?)?,
            fronts: played,
        })
    }
}

/// The status file of a server, and what is written there.
#[derive(Drop)]
pub(crate) struct Watch {
    pub(crate) host: HostRuntime,
    pub(crate) name: Text,
    /// The line that tells the program's name and version.
    pub(crate) version: &'static [u8],
    pub(crate) started: Option<UtcTime>,
    pub(crate) uptime: Stopwatch,
    pub(crate) counts: Arc<Counts>,
    pub(crate) files: Arc<Vec<Named>>,
    pub(crate) listeners: Arc<Listeners>,
    pub(crate) starts: Arc<Starts>,
    /// The count of lines that were written before the first job began.
    pub(crate) first_lines: u64,
    pub(crate) faults: Throttle,
}

// Why a status file can't be written.
#[derive(Drop)]
enum WatchFault {
    // Its name is that of something other than a regular file.
    Irregular,
    // Writing or renaming failed.
    File(io::Error),
}

impl From<io::Error> for WatchFault {
    fn from(error: io::Error) -> WatchFault {
        WatchFault::File(error)
    }
}

impl From<AllocError> for WatchFault {
    fn from(error: AllocError) -> WatchFault {
        WatchFault::File(io::Error::from(error))
    }
}

impl fmt::Display for WatchFault {
    fn fmt<W: fmt::Write>(&self, f: &mut fmt::Formatter<W>) -> fmt::Result {
        match self {
            WatchFault::Irregular => f.write_str("it is not a regular file"),
            WatchFault::File(error) => write!(f, "{error}"),
        }
    }
}

impl Watch {
    /// Starts a thread that writes the file now and then once a second, until no worker is left. If
    /// the system starts no thread, that is logged, and the file isn't written.
    pub(crate) fn start(self, rt: &impl Threads) {
        let host = self.host;
        if Builder::new().spawn(rt, move || self.run()).is_err() {
            report_line(
                &host,
                "the system starts no thread that writes the file of SATIP_STATUS, so it isn't \
                 written (for more threads: ulimit -u, TasksMax= of a unit; then start satip anew)",
            );
        }
    }

    fn run(self) {
        for _ in 0..u64::MAX {
            let has_ended = self.has_ended();
            self.write_once();
            if has_ended {
                return;
            }
            thread::sleep(&self.host, Duration::from_millis(EVERY_MS));
        }
    }

    // Returns whether no worker is left: nobody else shares the counts of one.
    fn has_ended(&self) -> bool {
        let visits = &self.counts.visits;
        visits.iter().all(|each| Arc::strong_count(each) == 1)
    }

    // Writes the file. Logs, at most once a minute, that it can't be written.
    fn write_once(&self) {
        if let Err(fault) = self.write() {
            if self.faults.is_due(&self.host) {
                let name = Shown(&self.name);
                report_line(
                    &self.host,
                    format_args!(
                        "status file {name} can't be written: {fault} (SATIP_STATUS names a file \
                         in a folder where satip may write)"
                    ),
                );
            }
        }
    }

    // Writes a file beside, and renames it. So the file is always whole.
    fn write(&self) -> Result<(), WatchFault> {
        let alloc = self.host.alloc();
        let path = str::from_utf8(self.name.bytes()).unwrap_or("");
        if let Ok(file) = fs::metadata(&self.host, path) {
            if !file.is_file() {
                return Err(WatchFault::Irregular);
            }
        }
        let beside = format!(in alloc; "{path}.new")?;
        let text = self.text(alloc)?;
        fs::write(&self.host, beside.as_str(), text.as_bytes())?;
        fs::rename(&self.host, beside.as_str(), path)?;
        Ok(())
    }

    fn text(&self, alloc: Global) -> Result<String, AllocError> {
        let mut sent = Vec::new(alloc);
        let datagrams = self.counts.sent.read(&mut sent)?;
        let mut destinations = Vec::new(alloc);
        for each in &sent {
            destinations.push(Destination(*each))?;
        }
        let status = Status {
            version: version_in(self.version),
            started: self.started,
            written: UtcTime::read(&self.host),
            uptime_ms: self.uptime.elapsed_ms(),
            lines: self.lines(),
            connections: self.connections(self.open_connections(alloc)?),
            datagrams,
            destinations,
            front_ends: self.front_ends(alloc)?,
        };
        format!(in alloc; "{status}")
    }

    // Returns the count of lines on standard error.
    fn lines(&self) -> u64 {
        let mut lines = self.first_lines;
        for named in self.files.iter() {
            lines = lines.saturating_add(named.lines());
        }
        lines
            .saturating_add(self.listeners.lines())
            .saturating_add(self.starts.lines())
            .saturating_add(self.counts.sent.lines())
            .saturating_add(self.faults.lines())
    }

    fn open_connections(&self, alloc: Global) -> Result<Vec<Connection>, AllocError> {
        let now_ms = match self.host.monotonic() {
            Ok(moment) => u64::try_from(moment.as_millis()).unwrap_or(0),
            Err(_) => 0,
        };
        let mut open = Vec::new(alloc);
        for visits in &self.counts.visits {
            if let Some(visit) = visits.open() {
                let age_ms = now_ms.saturating_sub(visit.since_ms);
                open.push(Connection { visit, age_ms })?;
            }
        }
        Ok(open)
    }

    // Returns the sums over all workers, with the connections that are open.
    fn connections(&self, open: Vec<Connection>) -> Connections {
        let mut sums = Connections {
            taken: 0,
            refused: Obstacles::default(),
            sent: 0,
            received: 0,
            open,
        };
        for visits in &self.counts.visits {
            sums.taken = sums.taken.saturating_add(visits.taken());
            sums.refused = sums.refused.with(&visits.refused());
            sums.sent = sums.sent.saturating_add(visits.sent());
            sums.received = sums.received.saturating_add(visits.received());
        }
        sums
    }

    fn front_ends(&self, alloc: Global) -> Result<Vec<FrontEnd<'_>>, AllocError> {
        let mut front_ends = Vec::new(alloc);
        for (place, front) in self.counts.fronts.iter().enumerate() {
            let played = front.played();
            front_ends.push(FrontEnd {
                number: place.saturating_add(1),
                played,
                named: named_of(&self.files, played.mux),
            })?;
        }
        Ok(front_ends)
    }
}

// Returns the name of the recording of a multiplex.
fn named_of(files: &[Named], mux: Option<u16>) -> Option<&Named> {
    files.get((mux? as usize).checked_sub(1)?)
}

// Returns the version in a line that tells a name and a version.
fn version_in(line: &'static [u8]) -> &'static str {
    let line = str::from_utf8(line).unwrap_or("").trim_end();
    match line.rsplit_once(' ') {
        Some((_, version)) => version,
        None => line,
    }
}
