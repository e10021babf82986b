//! Cuts recordings into transport packets (ISO 13818-1); reads packets written in hex digits.
//! Contract: the packets handed out are the first ones of the whole recording, however it is cut
//! into pieces.
#![tactic(auto)]

mod cutter;
mod cutter_laws;
mod digits;
mod packet;

pub use cutter::Cutter;
pub use cutter_laws::{hands_out_first, misses_nothing};
pub use digits::{are_digits, is_packet, read_packet};
pub use packet::Packet;
