//! Defines the plain server over lists: each event's step, legal histories and their readings.
//! Contract: the trait `Service`: a call adds one entry to the history, with an answer of the
//! event's kind, or returns why it added none. A burst adds one entry for each event that it took.
#![tactic(auto)]

mod answers;
mod consequences;
mod copies;
mod events;
mod fault;
mod lot;
mod service;
#[cfg(test)]
mod service_tests;
mod setting;
mod setting_values;
#[cfg(test)]
#[rattlefmt::skip]
#[tactic(auto, unfolding(
    satip_fronts::specs::Choice::choose,
    satip_fronts::specs::Choice::blocked,
    satip_fronts::specs::Choice::least,
    satip_fronts::specs::Choice::placed,
    satip_fronts::specs::Choice::may_take,
    satip_tune::specs::Words::pol_text,
    satip_tune::specs::Words::system_text,
    satip_tune::specs::Words::modulation_text,
    satip_tune::specs::Words::roll_off_text,
    satip_tune::specs::Words::fec_text,
    satip_tune::specs::Words::pilots_text_of,
))]
mod tests;
mod values;

pub use answers::{Answer, Beat, Closed, GetAnswer, Pulled, Replied, Work};
pub use consequences::{
    empty_only_hears, gone_changes_nothing, prefix_is_legal, refused_changes_nothing,
    refused_get_changes_nothing, stale_changes_nothing, tuning_eq_is_equality,
};
pub use copies::copy_of;
pub use events::Event;
pub use fault::ServiceFault;
pub use lot::Lot;
pub use service::Service;
pub use setting::Setting;
pub use setting_values::known_setting;
pub use values::{known_bytes, known_event};
