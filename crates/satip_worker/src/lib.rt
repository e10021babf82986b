//! Serves RTSP and HTTP connections, one after another, over any service.
//! Contract: the entries of a connection are the first requests in the bytes that it received, with
//! one draw each; the bytes that were sent are their replies, in order. One pause follows each
//! receive that found nothing, and each time that no connection came.
//! Only tested: that a reply leaves after the datagrams of its request.
#![tactic(auto)]

mod connection;
mod draws;
mod first;
mod http;
mod http_turns;
mod room;
mod rtsp;
mod turns;
mod worker;

pub use connection::serve_connection;
pub use draws::Draws;
pub use room::Room;
pub use satip_desk::{PumpKit, TickKit};
pub use satip_pump::{Batch, JobEnd, run_pump, run_ticker};
pub use worker::{WorkerEnd, run_worker};
