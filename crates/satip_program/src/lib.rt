//! Runs a command line: the top call, of words, streams and a desk.
//! Contract: each command ends with the status, output and line of its definition, and each status
//! but out of memory has its cause. `serve`, `journal` and `tunnel` run their jobs over one legal
//! history, which keeps the laws.
#![tactic(auto)]

mod commands;
mod top;

pub use satip_desk::{Desk, Jobs, JobsFault};
pub use satip_tunnel_serve::{Last, TunnelLast};
pub use top::{Ended, VERSION, offline, satip};
