//! Shares a tunnel among threads: the server with a lane of frames for each connection.
//! Contract: all calls of all callers are in one legal history of the tunnel, and each is a step of
//! the plain server or of the lanes. As a service, a caller shows the server's entries alone and
//! never returns out of memory.
//! Only tested: that memory for the tunnel, its lanes and a connection's room is given.
#![tactic(auto)]

mod answer_examples;
mod answers;
mod caller;
mod crew;
mod events;
mod feeding;
mod lane;
mod lane_laws;
mod lanes;
mod one_tunnel;
mod queue;
mod ring;
mod room;
mod sending;
mod served;
mod tunnel;
mod tunnel_laws;

pub use answer_examples::worked_rows;
pub use caller::TunnelCaller;
pub use events::{TunnelAnswer, TunnelEvent};
pub use lane::Drained;
pub use lane_laws::{frames_keep_order, held_by_number, numbers_rise};
pub use lanes::Lanes;
pub use one_tunnel::Tunnel;
pub use room::{TunnelRoom, request};
pub use satip_jobs::{put_last, take_first};
pub use satip_rtsp_interleaved::Parter;
pub use tunnel::{SharedTunnel, TunnelPass, make};
pub use tunnel_laws::lane_numbers_rise;
