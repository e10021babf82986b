//! What a server does, in the form of its status file.

use crate::quoted::{Moment, Quoted, Thousandths, write_all};
use satip_datagrams::{Refused, Sent};
use satip_host::UtcTime;
use satip_playout::{Named, Played};
use satip_real::{Obstacles, OpenVisit};
use satip_world::DoorKind;
use std::fmt;
use std::net::Ipv4Addr;

/// What a server did until a moment. It is shown as a JSON object in one line (RFC 8259).
#[derive(Drop)]
pub(crate) struct Status<'a> {
    pub(crate) version: &'static str,
    pub(crate) started: Option<UtcTime>,
    pub(crate) written: Option<UtcTime>,
    pub(crate) uptime_ms: u64,
    pub(crate) lines: u64,
    pub(crate) connections: Connections,
    /// The sums over all destinations.
    pub(crate) datagrams: Sent,
    pub(crate) destinations: Vec<Destination>,
    pub(crate) front_ends: Vec<FrontEnd<'a>>,
}

impl fmt::Display for Status<'_> {
    fn fmt<W: fmt::Write>(&self, f: &mut fmt::Formatter<W>) -> fmt::Result {
        let (version, uptime) = (Quoted(self.version), Thousandths(self.uptime_ms));
        let (started, written) = (Moment(self.started), Moment(self.written));
        write!(
            f,
            "{{\"version\":{version},\"started\":{started},\"written\":{written}"
        )?;
        let lines = self.lines;
        write!(f, ",\"uptime_s\":{uptime},\"lines\":{{\"told\":{lines}}}")?;
        let connections = &self.connections;
        write!(f, ",\"connections\":{connections}")?;
        let (sent, bytes) = (self.datagrams.datagrams, self.datagrams.bytes);
        let refused = Causes(self.datagrams.refused);
        write!(
            f,
            ",\"datagrams\":{{\"sent\":{sent},\"bytes\":{bytes},\"refused\":{refused}}}"
        )?;
        f.write_str(",\"destinations\":")?;
        write_all(f, &self.destinations)?;
        f.write_str(",\"front_ends\":")?;
        write_all(f, &self.front_ends)?;
        f.write_str("}\n")
    }
}

/// The connections of a server.
#[derive(Drop)]
pub(crate) struct Connections {
    pub(crate) taken: u64,
    pub(crate) refused: Obstacles,
    pub(crate) sent: u64,
    pub(crate) received: u64,
    pub(crate) open: Vec<Connection>,
}

impl fmt::Display for Connections {
    fn fmt<W: fmt::Write>(&self, f: &mut fmt::Formatter<W>) -> fmt::Result {
        let (open, taken) = (self.open.len(), self.taken);
        write!(f, "{{\"open\":{open},\"taken\":{taken}")?;
        let Obstacles {
            descriptors,
            watch,
            other,
        } = self.refused;
        write!(
            f,
            ",\"refused\":{{\"descriptors\":{descriptors},\"watch\":{watch}"
        )?;
        write!(f, ",\"other\":{other}}}")?;
        let (sent, received) = (self.sent, self.received);
        write!(f, ",\"sent\":{sent},\"received\":{received},\"list\":")?;
        write_all(f, &self.open)?;
        f.write_str("}")
    }
}

/// An open connection, and the milliseconds since it came.
#[derive(Clone, Copy)]
pub(crate) struct Connection {
    pub(crate) visit: OpenVisit,
    pub(crate) age_ms: u64,
}

impl fmt::Display for Connection {
    fn fmt<W: fmt::Write>(&self, f: &mut fmt::Formatter<W>) -> fmt::Result {
        let (host, port) = (Ipv4Addr::from_bits(self.visit.peer.ip), self.visit.port);
        let kind = match self.visit.kind {
            DoorKind::Rtsp => "rtsp",
            DoorKind::Http => "http",
        };
        write!(
            f,
            "{{\"address\":\"{host}\",\"port\":{port},\"kind\":\"{kind}\""
        )?;
        let (age, sent, received) = (
            Thousandths(self.age_ms),
            self.visit.sent,
            self.visit.received,
        );
        write!(
            f,
            ",\"age_s\":{age},\"sent\":{sent},\"received\":{received}}}"
        )
    }
}

// The counts of refused datagrams.
#[derive(Clone, Copy)]
struct Causes(Refused);

impl fmt::Display for Causes {
    fn fmt<W: fmt::Write>(&self, f: &mut fmt::Formatter<W>) -> fmt::Result {
        let Refused {
            unheard,
            no_route,
            not_permitted,
            no_room,
            other,
        } = self.0;
        write!(f, "{{\"unheard\":{unheard},\"no_route\":{no_route}")?;
        write!(
            f,
            ",\"not_permitted\":{not_permitted},\"no_room\":{no_room}"
        )?;
        write!(f, ",\"other\":{other}}}")
    }
}

// The counts of one destination.
#[derive(Clone, Copy)]
pub(crate) struct Destination(pub(crate) Sent);

impl fmt::Display for Destination {
    fn fmt<W: fmt::Write>(&self, f: &mut fmt::Formatter<W>) -> fmt::Result {
        let (host, port) = (Ipv4Addr::from_bits(self.0.to.ip), self.0.to.port);
        write!(f, "{{\"address\":\"{host}\",\"port\":{port}")?;
        let (datagrams, bytes, refused) = (self.0.datagrams, self.0.bytes, Causes(self.0.refused));
        write!(
            f,
            ",\"datagrams\":{datagrams},\"bytes\":{bytes},\"refused\":{refused}}}"
        )
    }
}

/// A front end by its number, with what it played, and the name of the recording that it plays.
#[derive(Drop)]
pub(crate) struct FrontEnd<'a> {
    pub(crate) number: usize,
    pub(crate) played: Played,
    pub(crate) named: Option<&'a Named>,
}

impl fmt::Display for FrontEnd<'_> {
    fn fmt<W: fmt::Write>(&self, f: &mut fmt::Formatter<W>) -> fmt::Result {
        let number = self.number;
        write!(f, "{{\"number\":{number},\"mux\":")?;
        match self.played.mux {
            Some(mux) => write!(f, "{mux}")?,
            None => f.write_str("null")?,
        }
        f.write_str(",\"recording\":")?;
        match self.named {
            Some(named) => {
                let name = Quoted(str::from_utf8(named.name().bytes()).unwrap_or(""));
                write!(f, "{name}")?;
            }
            None => f.write_str("null")?,
        }
        let (packets, restarts) = (self.played.bytes / 188, self.played.restarts);
        write!(
            f,
            ",\"packets\":{packets},\"restarts\":{restarts},\"behind_ms\":"
        )?;
        match self.played.late_micros {
            Some(micros) => {
                let millis = Thousandths(micros);
                write!(f, "{millis}}}")
            }
            None => f.write_str("null}"),
        }
    }
}
