//! The events of the server, one at a time.

use satip_base::{Draw, Peer, SessionId};
use satip_http::HttpRequest;
use satip_rtsp::Request;
use satip_ts::Packet;

/// An event of the server.
#[derive(Drop)]
pub enum Event {
    /// An RTSP request of a client. A session that it creates takes its random numbers from `draw`.
    Request {
        peer: Peer,
        draw: Draw,
        request: Request,
    },
    /// An HTTP request of a client, with random numbers for its session.
    Get {
        peer: Peer,
        draw: Draw,
        request: HttpRequest,
    },
    /// A tick of the clock at the time `now`, in milliseconds of Unix time.
    Tick {
        now: u64,
    },
    /// A packet of the recording that plays for tune number `tune` of a front end.
    Packet {
        front: u16,
        tune: u64,
        packet: Packet,
    },
    /// The end of the recording that plays for tune number `tune` of a front end.
    Ended {
        front: u16,
        tune: u64,
    },
    /// The pump of a front end asks for work.
    Ask {
        front: u16,
    },
    /// An HTTP session's next packets are taken from its queue.
    Pull {
        session: SessionId,
    },
    /// An HTTP session is closed, since its connection ends.
    Close {
        session: SessionId,
    },
    /// The server stops.
    Stop,
}
