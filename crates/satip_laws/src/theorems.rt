//! Laws of every legal history, over its readings and the bytes that left. Each function does
//! nothing; its contract is the law.

ghost use Rattle.satip_laws.specs.OverReadings.{NumbersFromDraw, PayloadIsSelected, SsrcOfDrawTells};
ghost use Rattle.satip_laws.specs.ReadRecording.{PacketsAreOfRecordings};

/// Proves the payload law. The payload of an RTSP session, read from the bytes that left and
/// followed by a list of at most six packets, is what is selected for the session. The list is
/// empty if the session is over, if the last entry is a tick, or if it gives the session's stream
/// another tuning.
pub fn payload_is_selected()
    ensures law { PayloadIsSelected }
{}

/// Proves the numbering law. The RTP datagrams of a session are numbered one after another, modulo
/// 65536, from the first number of its draw on (RFC 3550, 5.1).
pub fn numbers_from_draw()
    ensures law { NumbersFromDraw }
{}

/// Proves the SSRC law. The RTP datagrams of a session are those that carry its SSRC, if no other
/// session was created with that SSRC (RFC 3550, 5.1).
pub fn ssrc_of_draw_tells()
    ensures law { SsrcOfDrawTells }
{}

/// Proves the recording law. It holds for a front end whose packets are all of one caller that does
/// what its pump does, in a history of fewer than 2^64 entries. The packets of one tune number that
/// aren't stale are a prefix of the recording of one multiplex, in order, if the recording is
/// exposed. At each of them the streams of the front end are tuned to that multiplex.
pub fn packets_are_of_recordings()
    ensures law { PacketsAreOfRecordings }
{}
