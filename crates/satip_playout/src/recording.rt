//! Recordings in files.

ghost use Rattle.std.specs.Prelude.{◌≡◌, ◌≢◌, ◌↔◌, [], IfOk, IsTrue};
ghost use Rattle.satip_base.specs.Streams.{fresh_feed};
ghost use Rattle.std.specs.Io.{ReadsAtMost};

use crate::progress::Progress;
use crate::read_ahead::{PACKET, ReadAhead};
use crate::recording_clock::RecordingClock;
use satip_base::{ReadSource, Source, Taken, Text};
use satip_host::{Shown, Throttle, report_line};
use std::alloc::{AllocError, Global};
use std::fs::File;
use std::io::{ErrorKind, Read, Seek, SeekFrom};
use std::marker::Model;
use std::rt::Files;
use std::sync::Arc;
use std::{fmt, fs, io};

// Errors of a shortage (errno(3)).
const ENOMEM: i32 = 12;

const ENFILE: i32 = 23;

const EMFILE: i32 = 24;

/// Why a recording can't be played.
#[derive(Debug, Drop)]
pub enum RecordingFault {
    /// Its multiplex has no name of a file.
    Unnamed,
    /// The name is of a directory, a FIFO, a device or a socket.
    Irregular,
    /// The file can't be opened.
    Open(io::Error),
}

impl RecordingFault {
    /// Returns whether descriptors or memory were short, so that the file may be opened later
    /// (open(2)).
    pub(crate) fn is_shortage(&self) -> bool {
        match self {
            RecordingFault::Open(error) => {
                error.kind() == ErrorKind::OutOfMemory
                    || matches!(error.raw_os_error(), Some(ENOMEM | ENFILE | EMFILE))
            }
            RecordingFault::Unnamed | RecordingFault::Irregular => false,
        }
    }
}

impl fmt::Display for RecordingFault {
    fn fmt<W: fmt::Write>(&self, f: &mut fmt::Formatter<W>) -> fmt::Result {
        match self {
            RecordingFault::Unnamed => f.write_str("it has no name"),
            RecordingFault::Irregular => f.write_str("it is not a regular file"),
            RecordingFault::Open(error) => write!(f, "{error}"),
        }
    }
}

impl From<io::Error> for RecordingFault {
    fn from(error: io::Error) -> RecordingFault {
        RecordingFault::Open(error)
    }
}

/// Returns the length of the regular file of this name, in bytes.
pub(crate) fn file_length(rt: &HostRuntime, name: &Text) -> Result<u64, RecordingFault> {
    let file = open_regular(rt, name)?;
    Ok(file.metadata()?.len())
}

// Opens a regular file. Checks the name before, since opening a FIFO waits for its writer. Checks
// the file again after, since the name may have become another file's in between.
fn open_regular(rt: &HostRuntime, name: &Text) -> Result<File, RecordingFault> {
    let path = str::from_utf8(name.bytes()).unwrap_or("");
    if !fs::metadata(rt, path)?.is_file() {
        return Err(RecordingFault::Irregular);
    }
    let file = fs::open(rt, path)?;
    if !file.metadata()?.is_file() {
        return Err(RecordingFault::Irregular);
    }
    Ok(file)
}

/// The way in which recordings are played.
#[derive(Drop)]
pub struct Playing {
    /// Whether a recording starts again at its end.
    pub repeats: bool,
    /// The progress to which a recording reports, if somebody follows it.
    pub progress: Option<Arc<Progress>>,
}

impl Playing {
    // Returns the same way of playing, for one recording.
    fn of_recording(&self) -> io::Result<Playing> {
        let progress = match &self.progress {
            Some(progress) => Some(Arc::try_clone(progress)?),
            None => None,
        };
        Ok(Playing {
            repeats: self.repeats,
            progress,
        })
    }

    // Returns whether packets are looked at one by one.
    fn needs_packets(&self) -> bool {
        self.repeats || self.has_clock()
    }

    fn has_clock(&self) -> bool {
        match &self.progress {
            Some(progress) => progress.is_by_clock(),
            None => false,
        }
    }

    fn tell(&self, micros: Option<u64>) {
        if let Some(progress) = &self.progress {
            progress.tell(micros);
        }
    }

    fn tell_break(&self) {
        if let Some(progress) = &self.progress {
            progress.tell_break();
        }
    }

    fn count_restart(&self) {
        if let Some(progress) = &self.progress {
            progress.count_restart();
        }
    }

    // Notes that the recording of a multiplex is played from now on.
    pub(crate) fn begin(&self, mux: u16) {
        if let Some(progress) = &self.progress {
            progress.begin(mux);
        }
    }

    // Notes that no recording is played from now on.
    pub(crate) fn end(&self) {
        if let Some(progress) = &self.progress {
            progress.end();
        }
    }
}

/// The bytes of a recording's file. If it repeats or its clock counts, its packets, one after the
/// other, without the bytes between them.
#[derive(Drop)]
struct PacketReader {
    rt: HostRuntime,
    named: Named,
    file: File,
    ahead: ReadAhead,
    // The count of the first bytes read ahead whose packets were looked at.
    looked: usize,
    clock: RecordingClock,
    playing: Playing,
    // Whether a packet was read since the file's start.
    any: bool,
}

impl PacketReader {
    // Opens the file of this name.
    fn open(
        rt: &HostRuntime,
        named: &Named,
        playing: &Playing,
    ) -> Result<PacketReader, RecordingFault> {
        let file = open_regular(rt, &named.name)?;
        let named = named.copy(rt)?;
        let playing = playing.of_recording()?;
        playing.tell_break();
        Ok(PacketReader {
            rt: *rt,
            named,
            file,
            ahead: ReadAhead::new(),
            looked: 0,
            clock: RecordingClock::new(),
            playing,
            any: false,
        })
    }

    // Reads packets, one after the other, as many as were read ahead and the buffer has room for; a
    // part of one if it has no room for one. Returns the count of bytes, 0 at the end.
    fn read_packets(&mut self, buf: &mut [u8]) -> io::Result<usize>
        ensures within { ReadsAtMost result buf.new }
    {
        if self.looked == 0 {
            if !self.find()? {
                return Ok(0);
            }
            self.look((buf.len() / PACKET).max(1));
        }
        let count = self.ahead.give(buf, self.looked);
        self.looked = self.looked.saturating_sub(count);
        Ok(count)
    }

    // Reads on until a whole packet is there. Returns whether there is one.
    fn find(&mut self) -> io::Result<bool> {
        for _ in 0..u64::MAX {
            if self.ahead.find() {
                return Ok(true);
            }
            if !self.read_on()? {
                return Ok(false);
            }
        }
        Ok(false)
    }

    // Looks at the packets that were read ahead, at most `most` of them.
    fn look(&mut self, most: usize) {
        for _ in 0..most {
            let Some(packet) = self.ahead.packet_at(self.looked) else {
                return;
            };
            self.any = true;
            self.looked = self.looked.saturating_add(PACKET);
            if self.playing.has_clock() && self.clock.read(packet) {
                self.playing.tell_break();
            }
        }
    }

    // Reads more of the file. Returns whether there was more.
    fn read_on(&mut self) -> io::Result<bool> {
        if self.ahead.fill(&mut self.file)? == 0 {
            return self.begin_again();
        }
        Ok(true)
    }

    // Starts at the file's start again, if recordings repeat and this one had a packet since then.
    // Returns whether it does. Drops an incomplete packet at the end.
    fn begin_again(&mut self) -> io::Result<bool> {
        if !self.playing.repeats || !self.any {
            return Ok(false);
        }
        self.file.seek(SeekFrom::Start(0))?;
        self.playing.count_restart();
        self.any = false;
        self.ahead.clear();
        self.clock.break_off();
        self.playing.tell_break();
        Ok(true)
    }
}

impl Read for PacketReader {
    fn read(&mut self, buf: &mut [u8]) -> io::Result<usize> {
        let read = match self.playing.needs_packets() {
            true => self.read_packets(buf),
            false => self.file.read(buf),
        };
        if let Err(error) = &read {
            report_fault(&self.rt, &self.named, error);
        }
        self.playing.tell(self.clock.micros());
        read
    }
}

// Reports that a recording ended early.
fn report_fault(rt: &HostRuntime, named: &Named, error: &io::Error) {
    if error.kind() != ErrorKind::Interrupted && named.lines.is_due(rt) {
        let name = &named.name;
        report_line(rt, ReadFault { name, error });
    }
}

#[derive(Drop)]
struct ReadFault<'a> {
    name: &'a Text,
    error: &'a io::Error,
}

impl fmt::Display for ReadFault<'_> {
    fn fmt<W: fmt::Write>(&self, f: &mut fmt::Formatter<W>) -> fmt::Result {
        let (name, error) = (Shown(self.name), self.error);
        write!(
            f,
            "recording {name} can't be read on, so it ends for its clients: {error} (look after \
             its disk: the next client that tunes to it gets it)"
        )
    }
}

/// The name of a recording's file. Lines on it are at least a minute apart.
#[derive(Drop)]
pub struct Named {
    pub(crate) name: Text,
    pub(crate) lines: Arc<Throttle>,
}

impl Named {
    /// Returns the name.
    pub fn name(&self) -> &Text {
        &self.name
    }

    /// Returns the count of lines on the recording.
    pub fn lines(&self) -> u64 {
        self.lines.lines()
    }
}

impl Named {
    /// Creates the name of a recording on which nothing was reported yet.
    pub fn new(alloc: Global, name: Text) -> Result<Named, AllocError> {
        let lines = Arc::new(alloc, Throttle::new())?;
        Ok(Named { name, lines })
    }

    // Returns the same name, whose lines are limited with those of this one.
    fn copy(&self, rt: &HostRuntime) -> io::Result<Named> {
        let text = str::from_utf8(self.name.bytes()).unwrap_or("");
        match Text::of(rt.alloc(), text) {
            Ok(name) => Ok(Named {
                name,
                lines: Arc::try_clone(&self.lines)?,
            }),
            Err(_) => Err(io::Error::from(ErrorKind::OutOfMemory)),
        }
    }
}

/// A recording that is read from its file. If it repeats or its clock counts, up to 12220 bytes are
/// read at once, and it is handed out packet by packet. Else as much is read as is asked for.
#[derive(Drop)]
pub struct RealRecording {
    source: ReadSource<PacketReader>,
    // What counts the bytes that are read, if somebody does.
    progress: Option<Arc<Progress>>,
    faults: u64,
}

impl Model for RealRecording {
    ghost use Rattle.std.specs.Prelude.{[]};
    ghost use Rattle.satip_base.specs.Streams.{Feed};

    ghost Value = { Feed };

    ghost view = { λ r. record {
      left = [];
      ended = r.source.ended;
      faults = r.faults;
      taken = r.source.taken;
    } };
}

impl RealRecording {
    /// Opens the recording in the regular file of this name.
    pub(crate) fn open(
        rt: &HostRuntime,
        named: &Named,
        playing: &Playing,
    ) -> Result<RealRecording, RecordingFault>
        ensures fresh { IfOk result (λ recording. recording ≡ fresh_feed []) }
    {
        let progress = playing.of_recording()?.progress;
        let reader = PacketReader::open(rt, named, playing)?;
        Ok(RealRecording {
            source: ReadSource::new(reader),
            progress,
            faults: 0,
        })
    }

    // Counts bytes that were read.
    fn count(&self, bytes: usize) {
        if let Some(progress) = &self.progress {
            progress.count(bytes);
        }
    }

    /// Returns whether it failed.
    pub(crate) fn has_failed(&self) -> bool
        ensures failed { IsTrue result ↔ (self.now.faults ≢ 0) }
    {
        self.faults != 0
    }
}

impl Source for RealRecording {
    ghost tells = { ⊥ };

    ghost feed = { λ r. r };

    fn take(&mut self, buf: &mut [u8]) -> Taken {
        match self.source.take(buf) {
            Taken::Got(count) => {
                self.count(count);
                Taken::Got(count)
            }
            Taken::End => Taken::End,
            Taken::Failed => {
                self.faults = self.faults.saturating_add(1);
                Taken::Failed
            }
        }
    }
}
