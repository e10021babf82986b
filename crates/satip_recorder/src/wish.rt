//! The stream to be recorded.

/// A stream at a server, and the number of its packets to record. The address is that of the
/// server, as each request has it, with its port unless that is the usual one. The query names the
/// stream (SAT>IP 1.2.2, section 3.5.10).
#[derive(Drop)]
pub struct Wish<'a> {
    pub address: &'a [u8],
    pub query: &'a [u8],
    pub count: u32,
}
