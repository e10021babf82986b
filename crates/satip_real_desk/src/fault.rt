//! The reasons why a server can't begin.

use satip_base::{Text, Want};
use satip_host::Shown;
use satip_real::BindFault;
use std::alloc::{AllocError, AllocFailed};
use std::{fmt, io};

/// The reason why there are no kits.
#[derive(Drop)]
pub enum KitsFault {
    /// Listening at the address and the port for RTSP failed.
    RtspPort(io::Error),
    /// Listening at the address and the port for HTTP failed.
    HttpPort(io::Error),
    /// No UDP socket is available at the address.
    Socket(io::Error),
    /// `SATIP_PACE` is set to something other than `recording`.
    Pace,
    /// `SATIP_REPEAT` is set to something other than `1`.
    Repeat,
    /// This variable names no file.
    Name(&'static str),
    /// The file that asks a server to end is there.
    Stopped(Text),
    /// No random bytes are available for a worker's key.
    Key,
    /// Out of memory.
    Want,
}

impl fmt::Display for KitsFault {
    fn fmt<W: fmt::Write>(&self, f: &mut fmt::Formatter<W>) -> fmt::Result {
        match self {
            KitsFault::RtspPort(error) => write!(f, "RTSP port: {error}"),
            KitsFault::HttpPort(error) => write!(f, "HTTP port: {error}"),
            KitsFault::Socket(error) => write!(f, "UDP socket: {error}"),
            KitsFault::Pace => f.write_str("SATIP_PACE has no value but recording"),
            KitsFault::Repeat => f.write_str("SATIP_REPEAT has no value but 1"),
            KitsFault::Name(name) => write!(f, "{name} has no name of a file"),
            KitsFault::Stopped(name) => {
                let name = Shown(name);
                write!(
                    f,
                    "{name} asks servers to end (remove it, then start satip)"
                )
            }
            KitsFault::Key => write!(f, "no random bytes"),
            KitsFault::Want => write!(f, "out of memory"),
        }
    }
}

impl From<BindFault> for KitsFault {
    fn from(fault: BindFault) -> KitsFault {
        match fault {
            BindFault::Rtsp(error) => KitsFault::RtspPort(error),
            BindFault::Http(error) => KitsFault::HttpPort(error),
        }
    }
}

impl From<Want> for KitsFault {
    fn from(_want: Want) -> KitsFault {
        KitsFault::Want
    }
}

impl<T> From<AllocFailed<T>> for KitsFault
where
    T: Drop,
{
    fn from(_failed: AllocFailed<T>) -> KitsFault {
        KitsFault::Want
    }
}

impl From<AllocError> for KitsFault {
    fn from(_error: AllocError) -> KitsFault {
        KitsFault::Want
    }
}
