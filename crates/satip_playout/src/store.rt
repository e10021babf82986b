//! The recordings of the multiplexes.

ghost use Rattle.std.specs.Prelude.{◌≡◌, [], IfOk};
ghost use Rattle.satip_base.specs.Streams.{fresh_feed};
ghost use Rattle.satip_playout.specs.StoreCounts.{fresh_counts};

use crate::recording::{Named, Playing, RealRecording, RecordingFault, file_length};
use satip_base::{Failed, Text};
use satip_host::{Shown, report_line};
use satip_world::MuxStore;
use std::marker::Model;
use std::sync::Arc;
use std::time::Duration;
use std::{fmt, thread};

// How often a recording is opened again during a shortage.
const SHORTAGE_WAITS: u32 = 40;

// The time between two such attempts, in milliseconds.
const SHORTAGE_MS: u64 = 50;

/// The recordings of the multiplexes, each in the regular file of its name. A multiplex without a
/// name, or whose file can't be opened, has no recording.
#[derive(Drop)]
pub struct RealStore {
    rt: HostRuntime,
    files: Arc<Vec<Named>>,
    playing: Playing,
    faults: u64,
    lent: u64,
    peak: u64,
}

impl Model for RealStore {
    ghost use Rattle.satip_playout.specs.StoreCounts.{StoreCounts};

    ghost Value = { StoreCounts };

    ghost view = { λ s. record { faults = s.faults; lent = s.lent; peak = s.peak } };
}

impl RealStore {
    /// Creates a store whose multiplex `n` has the name at place `n - 1`.
    pub fn new(rt: HostRuntime, files: Arc<Vec<Named>>, playing: Playing) -> RealStore
        ensures fresh { result ≡ fresh_counts }
    {
        RealStore {
            rt,
            files,
            playing,
            faults: 0,
            lent: 0,
            peak: 0,
        }
    }

    /// Returns the count of recordings that were started and not handed back.
    pub fn lent(&self) -> u64
        ensures lent { result ≡ self.now.lent }
    {
        self.lent
    }

    /// Returns the most recordings that were started and not handed back at one time.
    pub fn peak(&self) -> u64
        ensures peak { result ≡ self.now.peak }
    {
        self.peak
    }

    /// Returns the length of the file of a multiplex in bytes, or why it can't be played.
    pub fn length(&self, mux: u16) -> Result<u64, RecordingFault> {
        match name_of(&self.files, mux) {
            Some(named) => file_length(&self.rt, &named.name),
            None => Err(RecordingFault::Unnamed),
        }
    }
}

// Returns the name of the file of a multiplex.
fn name_of(files: &[Named], mux: u16) -> Option<&Named> {
    files.get((mux as usize).checked_sub(1)?)
}

// Opens a recording. During a shortage, tries again for two seconds.
fn open(rt: &HostRuntime, named: &Named, playing: &Playing) -> Result<RealRecording, RecordingFault>
    ensures fresh { IfOk result (λ recording. recording ≡ fresh_feed []) }
{
    for _ in 0..SHORTAGE_WAITS {
        match RealRecording::open(rt, named, playing) {
            Err(fault) if fault.is_shortage() => {
                thread::sleep(rt, Duration::from_millis(SHORTAGE_MS));
            }
            opened => return opened,
        }
    }
    RealRecording::open(rt, named, playing)
}

// Opens the recording of a multiplex. Reports a fault on standard error, at most once a minute.
fn begin(
    rt: &HostRuntime,
    files: &[Named],
    playing: &Playing,
    mux: u16,
) -> Result<RealRecording, RecordingFault>
    ensures fresh { IfOk result (λ recording. recording ≡ fresh_feed []) }
{
    let Some(named) = name_of(files, mux) else {
        return Err(RecordingFault::Unnamed);
    };
    match open(rt, named, playing) {
        Ok(recording) => Ok(recording),
        Err(fault) => {
            report_start(rt, named, &fault);
            Err(fault)
        }
    }
}

fn report_start(rt: &HostRuntime, named: &Named, fault: &RecordingFault) {
    if named.lines.is_due(rt) {
        let name = &named.name;
        report_line(rt, StartFault { name, fault });
    }
}

#[derive(Drop)]
struct StartFault<'a> {
    name: &'a Text,
    fault: &'a RecordingFault,
}

impl fmt::Display for StartFault<'_> {
    fn fmt<W: fmt::Write>(&self, f: &mut fmt::Formatter<W>) -> fmt::Result {
        let (name, fault) = (Shown(self.name), self.fault);
        write!(
            f,
            "recording {name} can't be played: {fault} (put it back, readable for satip: the next \
             client that tunes to it gets it)"
        )
    }
}

impl MuxStore for RealStore {
    ghost use Rattle.satip_playout.specs.StoreCounts.{counts_view};

    type From = RealRecording;

    ghost shelf = { counts_view };

    fn start(&mut self, mux: u16) -> Result<RealRecording, Failed> {
        if self.lent == u64::MAX {
            self.faults = self.faults.saturating_add(1);
            return Err(Failed);
        }
        match begin(&self.rt, &self.files, &self.playing, mux) {
            Ok(from) => {
                self.lent += 1;
                self.peak = self.peak.max(self.lent);
                self.playing.begin(mux);
                Ok(from)
            }
            Err(_) => {
                self.faults = self.faults.saturating_add(1);
                Err(Failed)
            }
        }
    }

    fn back(&mut self, from: RealRecording) {
        self.lent = self.lent.saturating_sub(1);
        self.playing.end();
        if from.has_failed() {
            self.faults = self.faults.saturating_add(1);
        }
    }
}
