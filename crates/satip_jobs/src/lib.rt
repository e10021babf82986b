//! Runs workers, pumps and the ticker in parallel, each with a caller split off from one.
//! Contract: each job's postcondition holds at its index. The one stop follows the last worker.
//! Callers are joined again, and kits come back in their order.
//! Only tested: that the jobs run in parallel.
#![tactic(auto)]

mod callers;
mod crew;
mod each;
mod end;
mod lists;
mod posts;
mod run;
mod seat;

pub use crew::Crew;
pub use each::{run_beside, run_each};
pub use end::ServeEnd;
pub use lists::{put_last, take_first};
pub use posts::{Posts, Space};
pub use run::run_jobs;
pub use seat::Seat;
