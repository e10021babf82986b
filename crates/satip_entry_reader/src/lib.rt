//! Reads an entry of a history from the bytes of a record.
//! Contract: `read_record` returns an entry exactly if the bytes are its record; what is written is
//! read again. It takes no memory.
#![tactic(auto)]

mod entries;
mod events;
mod lists;
mod read_again;
mod reading;
mod reading_answers;
mod reading_fields;
mod record_examples;
mod requests;
mod values_read_again;

pub use entries::read_record;
pub use events::read_event;
pub use read_again::{
    entries_are_read_again, events_are_read_again, no_request_begins_another,
    requests_are_read_again,
};
pub use reading::Reading;
pub use record_examples::worked_records;
pub use requests::{read_http_request, read_query, read_request};
pub use values_read_again::{no_part_begins_another, parts_are_read_again};
