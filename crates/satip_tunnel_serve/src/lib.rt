//! Runs the tunnel with all its jobs: RTP inside the RTSP connections (RFC 2326, section 10.12).
//! Contract: a serve run over a history of the server and the lanes, which uses no outlet. A
//! connection was sent its replies and the first frames of its lane, or a prefix of that. The bytes
//! for it split into replies and frames in one way. The packets on a channel that one session alone
//! was given are a prefix of that session's payload.
#![tactic(auto)]

mod all_jobs;
mod answer_laws;
mod command;
mod command_laws;
mod end;
mod end_examples;
mod run;
mod run_laws;
mod seat;
mod space;
mod wire_laws;
#[rattlefmt::skip]
#[tactic(auto, unfolding(
    satip_rtsp_interleaved::specs::Turned::turned,
    satip_rtsp_interleaved::specs::Turned::told_ports,
    satip_rtsp_interleaved::specs::Turned::channel_line,
    satip_base::specs::Numbers::number_of,
))]
mod wire_examples;

pub use all_jobs::{TunnelLast, serve_through_tunnel};
pub use answer_laws::{requests_are_plain, runs_reply};
pub use command::{Tunneled, tunnel_by};
pub use end_examples::worked_rows as worked_ends;
pub use run::run_in_tunnel;
pub use run_laws::{connections_have_lanes, jobs_drain_own};
pub use satip_serve::{Last, Served, ServingEnd, serve_by};
pub use wire_examples::worked_rows as worked_wires;
pub use wire_laws::{runs_drain_own, wires_have_lanes, wires_split_one_way};
