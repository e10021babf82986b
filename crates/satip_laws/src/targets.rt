//! The targets of the datagrams of RTSP sessions, read from the entries of a history alone.

mod laws;
#[rattlefmt::skip]
#[tactic(auto, unfolding(
    satip_fronts::specs::Choice::choose,
    satip_fronts::specs::Choice::blocked,
    satip_fronts::specs::Choice::least,
    satip_fronts::specs::Choice::placed,
    satip_fronts::specs::Choice::may_take,
))]
mod rows;

pub use laws::{datagrams_go_to_last, datagrams_go_to_one};
pub use rows::worked_rows;
