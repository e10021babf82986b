//! Serves tunnel connections: replies and RTP leave on one connection (RFC 2326, section 10.12).
//! Contract: the entries of a connection are one Enter, the requests of what it received, each
//! followed by a drain, and one Leave. It was sent their rewritten replies and the drained frames,
//! or a prefix of that. Each end has its cause. It pauses after each drain that found no frame
//! while nothing came in. The silent outlet sends no datagram.
//! Only tested: that memory for a connection's room is given; that the lane is drained at every
//! receive that finds nothing, with one pause each, and at every one that completes no message,
//! with none.
#![tactic(auto)]

mod connection;
mod ends;
mod events;
mod exchanges;
mod hearing;
mod room;
#[rattlefmt::skip]
#[tactic(auto, unfolding(
    satip_rtsp_interleaved::specs::Turned::turned,
    satip_rtsp_interleaved::specs::Turned::told_ports,
    satip_rtsp_interleaved::specs::Turned::channel_line,
    satip_base::specs::Numbers::number_of,
))]
mod connection_examples;
mod silent;
mod worker;
mod worker_connection;
mod worker_examples;

pub use connection::serve_tunnel;
pub use connection_examples::{worked_causes, worked_rows};
pub use ends::TunnelEnd;
pub use room::WorkerRoom;
pub use silent::Silent;
pub use worker::run_tunnel_worker;
pub use worker_examples::worked_rows as worked_workers;
