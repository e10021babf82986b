//! States the laws of every legal history, each as the contract of a function that does nothing.
//! Contract: `law_1` to `law_9`: readings, payload, ownership, busy, ending, numbering, SSRC, pull
//! and recording. Each datagram goes where the last accepted SETUP of its session said.
#![tactic(auto)]

mod history_laws;
mod readings;
mod targets;
mod theorems;

pub use history_laws::{
    datagrams_carry, living_are_made, living_picked, numbers_count_from_first,
    packets_are_recorded, payload_is_given, retuning_flushes, sessions_are_counted, ssrc_tells,
    taken_is_given, tick_flushes,
};
pub use readings::{
    busy_where_blocked, ends_by_its_causes, only_owner_changes, picked_is_selected, pulls_in_order,
    selected_is_given, state_is_read,
};
pub use targets::{datagrams_go_to_last, datagrams_go_to_one, worked_rows};
pub use theorems::{
    numbers_from_draw, packets_are_of_recordings, payload_is_selected, ssrc_of_draw_tells,
};

// The nine laws by their numbers.
pub use readings::{
    busy_where_blocked as law_4, ends_by_its_causes as law_5, only_owner_changes as law_3,
    pulls_in_order as law_8, state_is_read as law_1,
};
pub use theorems::{
    numbers_from_draw as law_6, packets_are_of_recordings as law_9, payload_is_selected as law_2,
    ssrc_of_draw_tells as law_7,
};
