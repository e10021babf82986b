//! Implements the desk over the system: files, sockets, the clock and random bytes.
//! Contract: there is a worker kit for each worker, a pump kit for each front end and one tick kit,
//! all unused.
//! Only tested: that files, addresses and ports that can't be had end a serve with status 7, its
//! line and no kits.
#![tactic(auto)]

mod config;
mod desk;
mod fault;
mod kits;
mod quoted;
mod ready;
mod settings;
mod shared;
mod status;
mod watch;

pub use desk::{ConfigFile, RealDesk};
pub use fault::KitsFault;
pub use kits::{RealJobs, kits_told, real_kits};
pub use satip_real::Carried;
pub use settings::{Settings, Told};
