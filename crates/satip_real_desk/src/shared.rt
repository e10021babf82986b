//! The parts that the kits of one server share.

ghost use Rattle.std.specs.Prelude.{◌≡◌, IfOk};

use crate::fault::KitsFault;
use crate::settings::{Settings, Told};
use crate::watch::{Counts, Watch};
use satip_base::Text;
use satip_datagrams::{RealOutlet, SentCounts, SharedSocket};
use satip_host::{
    Arrivals, ClockStart, RealClock, Start, Starts, Stop, Stopwatch, Throttle, UtcTime,
};
use satip_playout::{Named, Playing, Progress, RealPacer, RealStore};
use satip_real::{Listeners, RealDoors};
use satip_tune::Config;
use std::alloc::Global;
use std::sync::{Arc, Wait};
use std::thread::Threads;

/// The listeners and a client's timeout, the UDP sockets, the names of the recordings and their
/// settings, the start of the clocks, the count of jobs that have begun, that of arrivals, and what
/// is counted for those who watch the server.
#[derive(Drop)]
pub(crate) struct Shared {
    listeners: Arc<Listeners>,
    timeout_s: u32,
    socket: Arc<SharedSocket>,
    files: Arc<Vec<Named>>,
    pub(crate) settings: Settings,
    clock_start: ClockStart,
    starts: Arc<Starts>,
    arrivals: Arc<Arrivals>,
    counts: Arc<Counts>,
    // The status file, if there is to be one.
    status: Option<StatusFile>,
}

// The name of a status file, and what doesn't change in it.
#[derive(Drop)]
struct StatusFile {
    name: Text,
    version: &'static [u8],
    started: Option<UtcTime>,
}

impl Shared {
    ghost use Rattle.std.specs.Prelude.{false};
    ghost use Rattle.satip_world.specs.Dials.{fresh_dial};
    ghost use Rattle.satip_playout.specs.StoreCounts.{fresh_counts};
    ghost use Rattle.satip_world.specs.Halls.{fresh_hall};
    ghost use Rattle.satip_world.specs.Outboxes.{fresh_outbox};

    /// Binds the sockets of a configuration, for a server that is told this beside it.
    pub(crate) fn open(
        host: &HostRuntime,
        alloc: Global,
        config: &Config,
        told: Told,
    ) -> Result<Shared, KitsFault> {
        let Told {
            carried,
            version,
            settings,
            stop,
            status,
        } = told;
        let stop = stop_of(host, stop)?;
        let workers = if status.is_some() { config.workers } else { 0 };
        let counts = Counts::new(alloc, workers, config.fronts.len(), settings.paces)?;
        let counts = Arc::new(alloc, counts)?;
        let arrivals = Arrivals::with_places(alloc, config.fronts.len())?;
        let arrivals = Arc::new(alloc, arrivals)?;
        let listeners = Listeners::bind(
            host,
            config.address,
            config.rtsp_port,
            config.http_port,
            config.workers,
            Arc::try_clone(&arrivals)?,
            carried,
        )?;
        let sent = match status {
            Some(_) => Some(Arc::try_clone(&counts.sent)?),
            None => None,
        };
        let socket = bind_socket(host, config.address, sent)?;
        Ok(Shared {
            listeners: Arc::new(
                alloc,
                match stop {
                    Some(stop) => listeners.ending_by(stop),
                    None => listeners,
                },
            )?,
            timeout_s: config.timeout,
            socket: Arc::new(alloc, socket)?,
            files: Arc::new(alloc, name_all(alloc, &config.files)?)?,
            settings,
            clock_start: ClockStart::read(host),
            starts: Arc::new(alloc, Starts::expect(job_count(config)))?,
            arrivals,
            counts,
            status: status.map(|name| StatusFile {
                name,
                version,
                started: UtcTime::read(host),
            }),
        })
    }

    /// Starts to write the status file, if there is to be one. `first_lines` were written before.
    pub(crate) fn watch(
        &self,
        host: &HostRuntime,
        rt: &impl Threads,
        first_lines: u64,
    ) -> Result<(), KitsFault> {
        let Some(status) = &self.status else {
            return Ok(());
        };
        let path = str::from_utf8(status.name.bytes()).unwrap_or("");
        let watch = Watch {
            host: *host,
            name: Text::of(host.alloc(), path)?,
            version: status.version,
            started: status.started,
            uptime: Stopwatch::start(*host),
            counts: Arc::try_clone(&self.counts)?,
            files: Arc::try_clone(&self.files)?,
            listeners: Arc::try_clone(&self.listeners)?,
            starts: Arc::try_clone(&self.starts)?,
            first_lines,
            faults: Throttle::new(),
        };
        watch.start(rt);
        Ok(())
    }

    /// Makes doors at the listeners that end after `accepts` connections, or never if it is 0.
    /// `place` is that of their worker among all workers, from 0.
    pub(crate) fn doors(
        &self,
        host: HostRuntime,
        accepts: u32,
        place: usize,
    ) -> Result<RealDoors, KitsFault>
        ensures fresh { IfOk result (λ doors. doors ≡ fresh_hall accepts false) }
    {
        let start = Start::counting(&self.starts)?;
        let listeners = Arc::try_clone(&self.listeners)?;
        let doors = RealDoors::new(host, start, listeners, self.timeout_s, accepts);
        match self.counts.visits.get(place) {
            Some(visits) => Ok(doors.counting(Arc::try_clone(visits)?)),
            None => Ok(doors),
        }
    }

    /// Makes an outlet at the UDP sockets.
    pub(crate) fn outlet<R: Wait + Drop>(&self, rt: R) -> Result<RealOutlet<R>, KitsFault>
        ensures fresh { IfOk result (λ outlet. outlet ≡ fresh_outbox) }
    {
        Ok(RealOutlet::new(rt, Arc::try_clone(&self.socket)?))
    }

    /// Makes a clock that counts from the start.
    pub(crate) fn clock(&self, host: HostRuntime) -> RealClock
        ensures fresh { result ≡ fresh_dial false }
    {
        RealClock::new(host, self.clock_start)
    }

    /// Returns the state that the store and the pacer of a pump share. `place` is that of the pump
    /// among all pumps, from 0.
    pub(crate) fn progress(&self, alloc: Global, place: usize) -> Result<Arc<Progress>, KitsFault> {
        match self.counts.fronts.get(place) {
            Some(progress) => Ok(Arc::try_clone(progress)?),
            None => Ok(Arc::new(alloc, Progress::new(self.settings.paces))?),
        }
    }

    /// Makes a store of the recordings, which report to `progress` if there is one.
    pub(crate) fn store(
        &self,
        host: HostRuntime,
        progress: Option<Arc<Progress>>,
    ) -> Result<RealStore, KitsFault>
        ensures fresh { IfOk result (λ store. store ≡ fresh_counts) }
    {
        let playing = Playing {
            repeats: self.settings.repeats,
            progress,
        };
        Ok(RealStore::new(host, Arc::try_clone(&self.files)?, playing))
    }

    /// Makes the pacer of a worker, whose first step is its doors.
    pub(crate) fn worker_pacer<R: Wait + Drop>(
        &self,
        host: HostRuntime,
    ) -> Result<RealPacer<R>, KitsFault>
        ensures none { IfOk result (λ pacer. pacer ≡ 0) }
    {
        Ok(RealPacer::new(host, Start::watching(&self.starts)?))
    }

    /// Makes the pacer of a pump, which follows what its store reports to `progress`. `place` is
    /// that of the pump among all pumps, from 0.
    pub(crate) fn pump_pacer<R: Wait + Drop>(
        &self,
        host: HostRuntime,
        rt: R,
        progress: &Arc<Progress>,
        place: usize,
    ) -> Result<RealPacer<R>, KitsFault>
        ensures none { IfOk result (λ pacer. pacer ≡ 0) }
    {
        let start = Start::counting(&self.starts)?;
        let (progress, arrivals) = (Arc::try_clone(progress)?, Arc::try_clone(&self.arrivals)?);
        Ok(RealPacer::following(host, rt, start, progress, arrivals, place))
    }

    /// Makes the pacer of the ticker.
    pub(crate) fn tick_pacer<R: Wait + Drop>(
        &self,
        host: HostRuntime,
    ) -> Result<RealPacer<R>, KitsFault>
        ensures none { IfOk result (λ pacer. pacer ≡ 0) }
    {
        Ok(RealPacer::ticking(host, Start::counting(&self.starts)?))
    }
}

// Returns what asks the server to end, if there may be something. A server doesn't start if it is
// there already.
fn stop_of(host: &HostRuntime, name: Option<Text>) -> Result<Option<Stop>, KitsFault> {
    let Some(name) = name else {
        return Ok(None);
    };
    let stop = Stop::by_file(*host, name);
    match stop.is_there() {
        true => Err(KitsFault::Stopped(stop.into_name())),
        false => Ok(Some(stop)),
    }
}

// Binds the UDP sockets, whose datagrams are counted in `sent`, if there are some.
fn bind_socket(
    host: &HostRuntime,
    ip: u32,
    sent: Option<Arc<SentCounts>>,
) -> Result<SharedSocket, KitsFault> {
    match SharedSocket::counting(*host, ip, sent) {
        Ok(socket) => Ok(socket),
        Err(error) => Err(KitsFault::Socket(error)),
    }
}

// Counts the jobs: the workers, a pump for each front end, and the ticker.
fn job_count(config: &Config) -> u64 {
    (config.fronts.len() as u64)
        .saturating_add(config.workers as u64)
        .saturating_add(1)
}

// Returns the recordings in files of these names.
fn name_all(alloc: Global, texts: &[Text]) -> Result<Vec<Named>, KitsFault> {
    let mut files = Vec::new(alloc);
    for text in texts {
        let text = str::from_utf8(text.bytes()).unwrap();
        files.push(Named::new(alloc, Text::of(alloc, text)?)?)?;
    }
    Ok(files)
}
