//! Logs that a server is ready, and which recordings it can't play.

use crate::settings::Settings;
use crate::shared::Shared;
use satip_base::Text;
use satip_host::{Shown, report_line, report_notice};
use satip_playout::{RealStore, RecordingFault};
use satip_tune::Config;
use std::alloc::AllocError;
use std::fmt;
use std::net::Ipv4Addr;

/// Returns the length of each recording's file in bytes; `None` for one that can't be played, which
/// is logged in one line on standard error.
pub(crate) fn recording_lengths(
    host: &HostRuntime,
    store: &RealStore,
    names: &[Text],
) -> Result<Vec<Option<u64>>, AllocError> {
    let mut lengths = Vec::new(host.alloc());
    for (place, name) in names.iter().enumerate() {
        let mux = u16::try_from(place.saturating_add(1)).unwrap_or(u16::MAX);
        let length = match store.length(mux) {
            Ok(length) => Some(length),
            Err(fault) => {
                let fault = &fault;
                report_line(host, NotPlayed { mux, name, fault });
                None
            }
        };
        lengths.push(length)?;
    }
    Ok(lengths)
}

/// Returns the count of lines of a start: one on each recording that can't be played, and the one
/// that the server is ready.
pub(crate) fn first_lines(lengths: &[Option<u64>]) -> u64 {
    let missing = lengths.iter().filter(|length| length.is_none()).count();
    (missing as u64).saturating_add(1)
}

// A recording that can't be played.
#[derive(Drop)]
struct NotPlayed<'a> {
    mux: u16,
    name: &'a Text,
    fault: &'a RecordingFault,
}

impl fmt::Display for NotPlayed<'_> {
    fn fmt<W: fmt::Write>(&self, f: &mut fmt::Formatter<W>) -> fmt::Result {
        let (mux, name, fault) = (self.mux, Shown(self.name), self.fault);
        write!(
            f,
            "recording of mux.{mux}, {name}, can't be played: {fault} (put it there, readable for \
             satip: the next client that tunes to it gets it; a path without / at its head counts \
             from the folder of the start)"
        )
    }
}

/// Logs in one line on standard error where a server listens, and what it plays.
pub(crate) fn report_ready(
    host: &HostRuntime,
    config: &Config,
    shared: &Shared,
    lengths: &[Option<u64>],
) {
    report_notice(
        host,
        Ready {
            address: Ipv4Addr::from(config.address),
            rtsp_port: config.rtsp_port,
            http_port: config.http_port,
            fronts: config.fronts.len(),
            workers: config.workers,
            settings: shared.settings,
            names: &config.files,
            lengths,
        },
    );
}

// The values of that line.
#[derive(Drop)]
struct Ready<'a> {
    address: Ipv4Addr,
    rtsp_port: u16,
    http_port: u16,
    fronts: usize,
    workers: u16,
    settings: Settings,
    names: &'a [Text],
    lengths: &'a [Option<u64>],
}

impl fmt::Display for Ready<'_> {
    fn fmt<W: fmt::Write>(&self, f: &mut fmt::Formatter<W>) -> fmt::Result {
        let (address, rtsp, http) = (self.address, self.rtsp_port, self.http_port);
        write!(f, "ready at {address}, RTSP port {rtsp}, HTTP port {http}")?;
        let (fronts, workers) = (self.fronts, self.workers);
        write!(f, "; front ends {fronts}, workers {workers}")?;
        f.write_str(match self.settings.paces {
            true => "; recordings at their own rate",
            false => "; recordings at 4812800 bit/s",
        })?;
        if self.settings.repeats {
            f.write_str(", repeated")?;
        }
        write_recordings(f, self.names, self.lengths)
    }
}

// Writes the count of recordings, and of those that can be played. Writes the number, the name and
// the length of each.
fn write_recordings<W: fmt::Write>(
    f: &mut fmt::Formatter<W>,
    names: &[Text],
    lengths: &[Option<u64>],
) -> fmt::Result {
    let (count, playable) = (lengths.len(), lengths.iter().flatten().count());
    write!(f, "; recordings {count}, of which {playable} can be played")?;
    let mut mux = 0u32;
    for (name, length) in names.iter().zip(lengths) {
        mux = mux.saturating_add(1);
        let name = Shown(name);
        match length {
            Some(length) => write!(f, "; mux.{mux} {name}, {length} bytes")?,
            None => write!(f, "; mux.{mux} {name}, can't be played")?,
        }
    }
    Ok(())
}
