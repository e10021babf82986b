//! Laws of every history of the plain server, over its states. Each function does nothing; its
//! contract is the law.

ghost use Rattle.satip_laws.specs.Carried.{DatagramsCarry};
ghost use Rattle.satip_laws.specs.Flushes.{RetuningFlushes, TickFlushes};
ghost use Rattle.satip_laws.specs.Makings.{LivingAreMade, SessionsAreCounted};
ghost use Rattle.satip_laws.specs.Numbers.{NumbersCountFromFirst, SsrcTells};
ghost use Rattle.satip_laws.specs.Recorded.{PacketsAreRecorded};
ghost use Rattle.satip_laws.specs.Payload.{LivingPicked, PayloadIsGiven, TakenIsGiven};

/// Proves that the n-th session that a history creates has the count n.
pub fn sessions_are_counted()
    ensures law { SessionsAreCounted }
{}

/// Proves that a living session was created in the history, and keeps its kind, its stream, its
/// SSRC and its first sequence number.
pub fn living_are_made()
    ensures law { LivingAreMade }
{}

/// Proves that the payload of an RTSP session, followed by its held packets, is what it was given.
/// At most six packets are held.
pub fn payload_is_given()
    ensures law { PayloadIsGiven }
{}

/// Proves that a living session has picked what it was given, and that a prefix of that has left
/// it.
pub fn living_picked()
    ensures law { LivingPicked }
{}

/// Proves that the pulls of an HTTP session took a prefix of what it was given. While the session
/// lives, at most 4096 packets are left.
pub fn taken_is_given()
    ensures law { TakenIsGiven }
{}

/// Proves that the RTP datagrams of a session are numbered one after another, modulo 65536, from
/// the first number of its draw on (RFC 3550, 5.1).
pub fn numbers_count_from_first()
    ensures law { NumbersCountFromFirst }
{}

/// Proves what the bytes of an RTP datagram carry if its packets have 188 bytes. Bytes 2 and 3 are
/// its sequence number, bytes 8 to 11 its SSRC (RFC 3550, 5.1). Those from byte 12 on are its
/// packets (RFC 2250, 2).
pub fn datagrams_carry()
    ensures law { DatagramsCarry }
{}

/// Proves that the RTP datagrams of a session are those that carry its SSRC, if no other session
/// was created with that SSRC (RFC 3550, 5.1).
pub fn ssrc_tells()
    ensures law { SsrcTells }
{}

/// Proves that no RTSP session holds a packet after a tick.
pub fn tick_flushes()
    ensures law { TickFlushes }
{}

/// Proves that no RTSP session of a stream holds a packet after an entry that gives the stream
/// another tuning.
pub fn retuning_flushes()
    ensures law { RetuningFlushes }
{}

/// Proves the recording law over states. It holds for a front end whose packets are all of one
/// caller that does what its pump does, in a history of fewer than 2^64 entries. The packets of one
/// tune number that aren't stale are a prefix of the recording of one multiplex, in order, if the
/// recording is exposed. At each of them the streams of the front end are tuned to that multiplex.
pub fn packets_are_recorded()
    ensures law { PacketsAreRecorded }
{}
