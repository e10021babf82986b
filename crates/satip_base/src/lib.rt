//! Holds the small types that all crates use: limits, numbers, texts, sources and sinks.
//! Contract: each write appends to an `Out`, which is a reply, datagrams and three spare buffers. A
//! source or a sink fails only if its count of faults rose.
//! Only tested: that `ReadSource` and `WriteSink` read and write what the system gives and takes.
#![tactic(auto)]

mod adapters;
mod datagrams;
mod entry;
mod identity;
pub mod limits;
mod lists;
mod network;
mod numbers;
mod out;
mod outcomes;
mod served;
mod streams;
mod strip;
mod tally;
#[cfg(test)]
mod tests;
mod words;

pub use adapters::{ReadSource, WriteSink};
pub use datagrams::Datagrams;
pub use entry::{Entry, Taken as StepTaken};
pub use identity::{Draw, SessionId};
pub use lists::{append_reserved, with_room};
pub use network::{Address, Peer, Ports};
pub use numbers::{read_ip, read_number};
pub use out::Out;
pub use outcomes::{Failed, Spent, Want};
pub use served::Served;
pub use streams::{Put, Sink, Source, Taken};
pub use strip::Strip;
pub use words::Text;
