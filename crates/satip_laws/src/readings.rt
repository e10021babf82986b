//! Laws that tie the plain server's state to the readings of its history.

mod laws;

pub use laws::{
    busy_where_blocked, ends_by_its_causes, only_owner_changes, picked_is_selected, pulls_in_order,
    selected_is_given, state_is_read,
};
