//! Texts and datagrams between a recording client and a server at 127.0.0.1.

/// The server's address.
pub const ADDRESS: &str = "127.0.0.1:18554";

/// The query of the recorded stream.
pub const QUERY: &str = "freq=12402&pol=v&msys=dvbs&sr=27500&pids=all";

/// The reply that grants a session and a stream.
pub const GRANTED: &[u8] =
    b"RTSP/1.0 200 OK\r\nCSeq: 1\r\nSession: 1a;timeout=2\r\ncom.ses.streamID: 7\r\n\r\n";

/// The reply that accepts the PLAY.
pub const ACCEPTED: &[u8] = b"RTSP/1.0 200 OK\r\nCSeq: 2\r\n\r\n";

/// The SETUP and the PLAY, with the client's ports from 5000 on.
pub const OPENED: &[u8] =
    b"SETUP rtsp://127.0.0.1:18554/?freq=12402&pol=v&msys=dvbs&sr=27500&pids=all RTSP/1.0\r\n\
    CSeq: 1\r\n\
    Transport: RTP/AVP;unicast;client_port=5000-5001\r\n\r\n\
    PLAY rtsp://127.0.0.1:18554/stream=7 RTSP/1.0\r\n\
    CSeq: 2\r\n\
    Session: 1a\r\n\r\n";

/// The TEARDOWN after the PLAY.
pub const LEFT: &[u8] =
    b"TEARDOWN rtsp://127.0.0.1:18554/stream=7 RTSP/1.0\r\nCSeq: 3\r\nSession: 1a\r\n\r\n";

/// The bytes of a datagram before its packets.
pub const HEAD: usize = 12;

const PACKET: usize = 188;

/// Returns the datagram with this sequence number, of three packets. Each byte of a packet but its
/// first is the number's low byte.
pub fn datagram(number: u16) -> [u8; 576] {
    let [high, low] = number.to_be_bytes();
    let mut bytes = [low; 576];
    let head = [0x80, 33, high, low, 0, 0, 0, 0, 0, 0, 0, 7];
    bytes[..HEAD].copy_from_slice(&head);
    bytes[HEAD] = 0x47;
    bytes[HEAD + PACKET] = 0x47;
    bytes[HEAD + 2 * PACKET] = 0x47;
    bytes
}
