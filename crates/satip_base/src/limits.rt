//! The limits of the server that more than one crate uses.

/// Most sessions at one time, and so most streams and queues.
pub const SESSIONS: usize = 64;

/// Most front ends.
pub const FRONTS: usize = 16;

/// Bytes of a transport packet (ISO 13818-1, 2.4.3.2).
pub const PACKET: usize = 188;

/// Most transport packets of an RTP datagram: those that fit into an Ethernet frame of 1500 bytes.
pub const PACKETS_A_DATAGRAM: usize = 7;

/// Bytes of an RTP header without contributing sources (RFC 3550, 5.1).
pub const RTP_HEAD: usize = 12;

/// Most bytes of transport packets in an RTP datagram.
pub const PAYLOAD: usize = PACKETS_A_DATAGRAM * PACKET;

/// Most bytes of an RTP datagram.
pub const DATAGRAM: usize = RTP_HEAD + PAYLOAD;

/// Most bytes of the RTP datagrams of all sessions, one of each.
pub const DATAGRAMS: usize = SESSIONS * DATAGRAM;

/// Most packets that are held for a session over RTP: one more makes a datagram.
pub const MOST_HELD: usize = PACKETS_A_DATAGRAM - 1;

/// Most packets that wait for a reader over HTTP.
pub const QUEUED: usize = 4096;

/// Most packets that one pull of a reader over HTTP returns.
pub const PULLED: usize = 64;

/// Most bytes that one pull returns.
pub const PULLED_BYTES: usize = PULLED * PACKET;

/// Least milliseconds from one report of a session to the next (SAT>IP 1.2.2, 3.5.13).
pub const REPORT_MS: u64 = 200;

/// Most bytes of a report, and of a `Strip`.
pub const REPORT: usize = 1600;

/// Most bytes of the reports of all sessions, one of each.
pub const REPORTS: usize = SESSIONS * REPORT;

/// Most bytes of the reply to one event.
pub const REPLY_BYTES: usize = 131072;

/// Most bytes of the datagrams of one event.
pub const EVENT_BYTES: usize = 262144;

/// Most datagrams of one event.
pub const EVENT_DATAGRAMS: usize = 256;

/// Most entries of a history.
pub const LONGEST_HISTORY: u64 = u64::MAX;

/// Most events of one burst.
pub const BURST: u32 = 64;

/// Most bytes that a connection reads at one time.
pub const PIECE: usize = 4096;

/// Most bytes of an input or a script.
pub const INPUT: usize = 67108864;

/// Most bytes of a configuration.
pub const CONFIGURATION: usize = 1048576;
