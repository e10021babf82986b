//! Lets many threads call one value, one at a time: the turn cell.
//! Contract: all calls of all passes are in one legal history, each once, with its caller's number,
//! in its caller's order.
//! Only tested: that a try during another call is Busy, and that the calls of two threads add up.
#![tactic(auto)]

mod burst;
mod calls;
mod cell;
mod feed;
mod passes;
mod rule;
mod seat;
mod turns;
mod view;

pub use cell::{Burst, Pass, Tried, TurnCell};
pub use feed::Feed;
pub use satip_base::Served;
pub use view::Row;
