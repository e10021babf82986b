//! Splits a byte stream into messages (RFC 2326, section 4; RFC 9112, section 2).
//! Contract: the messages are those of the whole text, however it is cut into pieces. A message is
//! a first line, a header block and a body of `Content-Length` bytes; `next_asked` reads the next
//! request.
//! Trusted: that the grammar of `httparse` is the standards'.
#![tactic(auto)]

mod asking;
mod framing;
mod heads;
mod hearing;
mod looking;
mod message_laws;
mod origins;
mod pieces;
mod said;

pub use asking::Asks;
pub use framing::{Break, Framer, Step};
pub use heads::read_line_end;
pub use hearing::{Next, next_asked};
pub use message_laws::{
    all_are_first, first_by_more_bytes, first_is_first, hands_out_first, has_reading,
    kept_by_more_bytes, misses_nothing, no_more_than_bytes, one_reading,
};
pub use origins::{after_origin, begins_like, first_bytes, rest_from};
pub use pieces::Piece;
pub use said::{Message, body_length, first_header};
