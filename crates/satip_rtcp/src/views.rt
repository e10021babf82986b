//! The data of a stream and of its sender that reports and descriptions print.

ghost use Rattle.std.specs.Prelude.{◌≡◌};

use satip_base::Address;
use satip_pids::PidSet;
use satip_tune::Tuning;

/// A stream as clients see it. `front` is the number of its front end, 0 for none, and `locked`
/// whether that receives a multiplex. `playing` is whether one of its sessions plays.
#[derive(Debug, Drop)]
pub struct StreamView {
    pub number: u16,
    pub tuning: Option<Tuning>,
    pub front: u16,
    pub locked: bool,
    pub pids: PidSet,
    pub playing: bool,
}

impl StreamView {
    /// Returns a copy of the view.
    pub(crate) fn copy(&self) -> StreamView
        ensures same { result ≡ self.now }
    {
        StreamView {
            number: self.number,
            tuning: self.tuning,
            front: self.front,
            locked: self.locked,
            pids: self.pids.copy(),
            playing: self.playing,
        }
    }
}

/// The sender of a report. `to` is where the report goes, `ssrc` the source of the stream, `clock`
/// in milliseconds of Unix time. `datagrams` and `octets` count the datagrams and the payload bytes
/// sent, both modulo 2^32. `address` is the server's IPv4 address.
#[derive(Clone, Copy, Debug, PartialEq, Eq)]
pub struct Sender {
    pub to: Address,
    pub ssrc: u32,
    pub clock: u64,
    pub datagrams: u32,
    pub octets: u32,
    pub address: u32,
}
