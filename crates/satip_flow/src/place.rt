//! The order of sessions, and the sender state of a packer.

/// A session's slot, its stream, and the count of its id.
#[derive(Clone, Copy, Debug, PartialEq, Eq)]
pub struct Place {
    pub slot: u16,
    pub stream: u16,
    pub count: u32,
}

/// A packer's next sequence number, and the counts of datagrams and payload bytes that it sent,
/// modulo 2^32. A sender report has them (RFC 3550, 6.4.1).
#[derive(Clone, Copy, Debug, PartialEq, Eq)]
pub struct SenderState {
    pub next: u16,
    pub datagrams: u32,
    pub octets: u32,
}
