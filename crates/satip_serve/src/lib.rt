//! Runs the server: workers, pumps and the ticker in parallel, over one history.
//! Contract: a serve run: each job has a separate caller, all entries are in one legal history,
//! which keeps the laws, and caller 0 makes the one stop after the last worker. The workers' keys
//! and the pumps' recordings come back in order.
//! Only tested: that jobs which wait for each other come to their ends.
#![tactic(auto)]

mod all_jobs;
mod command;
mod end;
mod kept_laws;
mod run;
mod seat;
mod space;
mod work;

pub use all_jobs::{Last, serve};
pub use command::{JobsLeft, Served, ServingEnd, serve_by};
pub use kept_laws::keeps_laws;
pub use run::run_services;
pub use satip_jobs::ServeEnd;
pub use seat::{PumpRoom, pump_seat, tick_seat, work_seat};
pub use space::{ServeSpace, make_gears, make_pump_rooms, take_space};
pub use work::{pump, tick};
