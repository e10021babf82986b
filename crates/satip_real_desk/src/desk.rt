//! The desk over the system: its files, sockets, clock and random bytes. It exposes nothing of
//! them.

ghost use Rattle.std.specs.Prelude.{◌≡◌, [], None, false, length, IfOk, IfSome};
ghost use Rattle.satip_base.specs.Streams.{fresh_feed};

use crate::config::check_config;
use crate::fault::KitsFault;
use crate::kits::{RealJobs, real_kits};
use satip_base::{Address, Failed, Peer, ReadSource, Sink, Source, Taken, Text, WriteSink};
use satip_datagrams::{RealInlet, RealOutlet};
use satip_desk::{Desk, Devices, JobJournal, JobsFault};
use satip_host::{RealClock, Shown};
use satip_playout::{RealPacer, RealStore};
use satip_real::{Carried, RealConn, RealDoors};
use satip_tune::Config;
use std::alloc::Global;
use std::fmt::Display;
use std::fs::File;
use std::marker::Model;
use std::rt::Files;
use std::snapshot::Snapshot;
use std::sync::Wait;
use std::thread::Threads;
use std::{fs, io};

/// The file of a configuration.
#[derive(Drop)]
pub struct ConfigFile {
    source: ReadSource<File>,
}

impl Model for ConfigFile {
    ghost use Rattle.satip_base.specs.Streams.{Feed};

    ghost Value = { Feed };

    ghost view = { λ f. f.source };
}

impl Source for ConfigFile {
    ghost use Rattle.std.specs.Prelude.{[]};

    ghost tells = { ⊥ };

    ghost feed = { λ f. record { left = []; ended = f.ended; faults = f.faults; taken = f.taken } };

    fn take(&mut self, buf: &mut [u8]) -> Taken {
        self.source.take(buf)
    }
}

/// Opens each configuration as the file of its name. Makes kits and a client's devices over the
/// system.
#[derive(Drop)]
pub struct RealDesk<R: Wait + Copy + Drop + Send> {
    host: HostRuntime,
    rt: R,
    carried: Carried,
    version: &'static [u8],
    given: Option<Snapshot<RealJobs<R>>>,
    dialed: Option<Address>,
    bound: bool,
    timed: bool,
    journaled: Vec<u64>,
    faults: u64,
}

impl<R: Wait + Copy + Drop + Send> RealDesk<R> {
    /// Creates a desk that never failed and gave nothing. The RTSP connections of its server carry
    /// this.
    pub fn new(host: HostRuntime, rt: R, carried: Carried) -> RealDesk<R>
        ensures given { result.given ≡ None }
        ensures dialed { result.dialed ≡ None }
        ensures bound { result.bound ≡ false }
        ensures timed { result.timed ≡ false }
        ensures journaled { result.journaled.items ≡ [] }
        ensures faults { result.faults ≡ 0 }
    {
        RealDesk {
            host,
            rt,
            carried,
            version: b"",
            given: None,
            dialed: None,
            bound: false,
            timed: false,
            journaled: Vec::new(host.alloc()),
            faults: 0,
        }
    }

    /// Returns this desk, of a program with this line of its name and version.
    pub fn of_version(self, version: &'static [u8]) -> RealDesk<R>
        ensures given { result.given ≡ self.given }
        ensures dialed { result.dialed ≡ self.dialed }
        ensures bound { result.bound ≡ self.bound }
        ensures timed { result.timed ≡ self.timed }
        ensures journaled { result.journaled ≡ self.journaled }
        ensures faults { result.faults ≡ self.faults }
    {
        RealDesk { version, ..self }
    }
}

// Logs on standard error why there are no kits.
fn tell_fault(rt: HostRuntime, fault: &KitsFault) {
    let Ok(line) = format!(in rt.alloc(); "{fault}\n") else {
        return;
    };
    WriteSink::new(rt.stderr()).put(line.as_bytes());
}

// Logs the error of a device, or of a file, on standard error.
fn tell_error<D: Display + Drop, E: Display + Drop>(rt: HostRuntime, device: D, error: E) {
    let Ok(line) = format!(in rt.alloc(); "{device}: {error}\n") else {
        return;
    };
    WriteSink::new(rt.stderr()).put(line.as_bytes());
}

// Logs on standard error why a configuration can't be read, or isn't TOML.
fn tell_config(rt: HostRuntime, name: &Text) {
    let path = str::from_utf8(name.bytes()).unwrap_or("");
    if let Err(fault) = check_config(rt, path) {
        tell_error(rt, Shown(name), fault);
    }
}

// Creates the file of a job's journal in the current folder. A file that is there is emptied.
fn make_journal(host: HostRuntime, job: u64) -> io::Result<File> {
    let name = format!(in host.alloc(); "journal.{job}")?;
    fs::create(&host, name.as_str())
}

// Opens the file of a name. Returns None if it can't be opened.
fn open(files: &impl Files<File = File>, name: &Text) -> Option<ConfigFile>
    ensures fresh { IfSome result (λ file. file ≡ fresh_feed []) }
{
    let path = str::from_utf8(name.bytes()).ok()?;
    let file = fs::open(files, path).ok()?;
    Some(ConfigFile {
        source: ReadSource::new(file),
    })
}

impl<R: Wait + Copy + Drop + Send> Devices for RealDesk<R> {
    type Doors = RealDoors;

    type Outlet = RealOutlet<R>;

    type Pacer = RealPacer<R>;

    type Store = RealStore;

    type Clock = RealClock;
}

impl<R: Wait + Threads + Copy + Drop + Send> Desk for RealDesk<R> {
    ghost use Rattle.std.specs.Prelude.{None, option_map};
    ghost use Rattle.satip_real_desk.specs.RealViews.{real_view};

    type Config = ConfigFile;

    type Wire = RealConn;

    type Inlet = RealInlet;

    type Moment = RealClock;

    type Journal = JobJournal<WriteSink<File>>;

    ghost desk = { λ d. record {
      text = λ _. None;
      faults = d.faults;
      given = option_map (λ kits. real_view kits.value) d.given;
      handed = record { wire = d.dialed; inlet = d.bound; moment = d.timed };
      journaled = d.journaled.items;
    } };

    fn jobs(
        &mut self,
        _alloc: Global,
        config: &Config,
        accepts: u32,
    ) -> Result<RealJobs<R>, JobsFault> {
        match real_kits(
            self.host,
            self.rt,
            config,
            accepts,
            self.carried,
            self.version,
        ) {
            Ok(jobs) => {
                self.given = Some(Snapshot::of(&jobs));
                Ok(jobs)
            }
            Err(KitsFault::Want) => Err(JobsFault::Want),
            Err(fault) => {
                tell_fault(self.host, &fault);
                self.faults = self.faults.saturating_add(1);
                Err(JobsFault::Failed)
            }
        }
    }

    fn config(&mut self, name: &Text) -> Result<ConfigFile, Failed> {
        tell_config(self.host, name);
        match open(&self.host, name) {
            Some(file) => Ok(file),
            None => {
                self.faults = self.faults.saturating_add(1);
                Err(Failed)
            }
        }
    }

    fn dial(&mut self, to: Address) -> Result<RealConn, Failed> {
        match RealConn::dial(self.host, to) {
            Ok(wire) => {
                self.dialed = Some(to);
                Ok(wire)
            }
            Err(error) => {
                tell_error(self.host, "connection", error);
                self.faults = self.faults.saturating_add(1);
                Err(Failed)
            }
        }
    }

    fn inlet(&mut self) -> Result<RealInlet, Failed> {
        let server = self.dialed.map(|to| Peer { ip: to.ip });
        match RealInlet::bind(self.host, 0, server) {
            Ok(inlet) => {
                self.bound = true;
                Ok(inlet)
            }
            Err(error) => {
                tell_error(self.host, "inlet", error);
                self.faults = self.faults.saturating_add(1);
                Err(Failed)
            }
        }
    }

    fn moment(&mut self) -> RealClock {
        self.timed = true;
        RealClock::begin(self.host)
    }

    fn journal(&mut self, job: u64) -> Result<JobJournal<WriteSink<File>>, Failed> {
        // its memory comes first, so that a file is emptied only if there is some
        let Ok(()) = self.journaled.reserve(1) else {
            self.faults = self.faults.saturating_add(1);
            return Err(Failed);
        };
        match make_journal(self.host, job) {
            Ok(file) => {
                self.journaled.push_reserved(job);
                Ok(JobJournal::new(job, WriteSink::new(file)))
            }
            Err(error) => {
                tell_error(self.host, "journal", error);
                self.faults = self.faults.saturating_add(1);
                Err(Failed)
            }
        }
    }
}
