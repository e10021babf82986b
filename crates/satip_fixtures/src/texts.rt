//! Texts of a client, the replies to them, the text of a configuration, and texts put together.

use satip_tune::cut;
use std::alloc::Global;
use std::test::Fail;

/// An OPTIONS in no session.
pub const OPTIONS: &[u8] = b"OPTIONS * RTSP/1.0\r\nCSeq: 1\r\n\r\n";

/// The reply to OPTIONS.
pub const OPTIONS_REPLY: &[u8] = b"RTSP/1.0 200 OK\r\n\
    CSeq: 1\r\n\
    Public: OPTIONS, DESCRIBE, SETUP, PLAY, TEARDOWN\r\n\r\n";

/// The reply that closes an RTSP connection on which no message came.
pub const CLOSING: &[u8] = b"RTSP/1.0 400 Bad Request\r\nConnection: close\r\n\r\n";

/// A SETUP over UDP, to the client's ports, which creates the first stream at the first multiplex.
/// It gives a key that the server doesn't know.
pub const SETUP: &[u8] = b"SETUP rtsp://192.168.1.10/\
    ?src=1&freq=11361.75&pol=h&ro=0.35&msys=dvbs2&mtype=8psk&plts=on&sr=22000&fec=23\
    &pids=0,16,17&x_pmt=100 RTSP/1.0\r\n\
    CSeq: 1\r\n\
    Transport: RTP/AVP;unicast;client_port=1400-1401\r\n\r\n";

/// The same SETUP over its connection, on the channels 0 and 1 (RFC 2326, section 10.12).
pub const SETUP_INTERLEAVED: &[u8] = b"SETUP rtsp://192.168.1.10/\
    ?src=1&freq=11361.75&pol=h&ro=0.35&msys=dvbs2&mtype=8psk&plts=on&sr=22000&fec=23\
    &pids=0,16,17&x_pmt=100 RTSP/1.0\r\n\
    CSeq: 1\r\n\
    Transport: RTP/AVP/TCP;interleaved=0-1\r\n\r\n";

/// Returns the query of both SETUPs.
pub fn first_query() -> &'static [u8] {
    let (_, behind) = cut(SETUP, b'?');
    let (query, _) = cut(behind.unwrap_or(b""), b' ');
    query
}

/// The text of a configuration with two front ends and both multiplexes.
pub const CONFIGURATION: &str = "address = \"192.168.1.10\"
[[frontend]]
sources = [1]
systems = [\"dvbs\", \"dvbs2\"]
[[frontend]]
sources = [1]
systems = [\"dvbs\", \"dvbs2\"]
[[mux]]
src = 1
freq = \"11361.75\"
pol = \"h\"
msys = \"dvbs2\"
sr = 22000
file = \"a.ts\"
[[mux]]
src = 1
freq = \"12402\"
pol = \"v\"
msys = \"dvbs\"
sr = 27500
file = \"b.ts\"
";

/// Returns the texts one after another.
pub fn joined(alloc: Global, texts: &[&[u8]]) -> Result<Vec<u8>, Fail> {
    let mut all = Vec::new(alloc);
    for text in texts {
        all.extend_from_slice(text)?;
    }
    Ok(all)
}

/// Returns the texts one after another, each repeated this number of times.
pub fn repeated(alloc: Global, parts: &[(&[u8], usize)]) -> Result<Vec<u8>, Fail> {
    let mut all = Vec::new(alloc);
    for (part, times) in parts {
        for _ in 0..*times {
            all.extend_from_slice(part)?;
        }
    }
    Ok(all)
}

/// Tells whether bytes are these texts one after another.
pub fn is_joined(bytes: &[u8], texts: &[&[u8]]) -> bool {
    let mut rest = bytes;
    for text in texts {
        let Some(behind) = rest.strip_prefix(*text) else {
            return false;
        };
        rest = behind;
    }
    rest.is_empty()
}
