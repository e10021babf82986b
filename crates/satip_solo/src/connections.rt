//! Connections over memory, and the texts on them.
ghost use Rattle.std.specs.Prelude.{◌≡◌, false};

use crate::setting::{ask_of_stream, give, letters, play, set_up, solo, tick};
use crate::solo::Solo;
use satip_base::Out;
use satip_fixtures::CLIENT;
use satip_memory::{MemoryConn, MemoryOutlet, MemoryPacer};
use satip_worker::{Draws, Room, serve_connection};
use satip_world::{ConnEnd, DoorKind};
use std::alloc::Global;
use std::sync::Wait;
use std::test::Fail;

/// The PLAY of the session that the key's first draw created.
pub const PLAY: &[u8] =
    b"PLAY rtsp://192.168.1.10/stream=1 RTSP/1.0\r\nCSeq: 2\r\nSession: 00000001ade0b876\r\n\r\n";

/// The reply to the SETUP.
pub const SETUP_REPLY: &[u8] = b"RTSP/1.0 200 OK\r\n\
    CSeq: 1\r\n\
    Session: 00000001ade0b876;timeout=60\r\n\
    Transport: RTP/AVP;unicast;client_port=1400-1401\r\n\
    com.ses.streamID: 1\r\n\r\n";

/// A GET of the second multiplex.
pub const GET: &[u8] = b"GET /?freq=12402&pol=v&msys=dvbs&sr=27500 HTTP/1.1\r\n\r\n";

/// The head of the answer to the GET.
pub const HEAD: &[u8] = b"HTTP/1.1 200 OK\r\nContent-Type: video/mp2t\r\nConnection: close\r\n\r\n";

/// The key of the draws. Its first draw has the word ade0b876, the SSRC 903df1a0 and the first
/// sequence number 23872 (the first words of the ChaCha20 stream of this key).
pub const KEY: [u8; 32] = [0; 32];

/// The result of serving a connection: its end, the kinds of all entries, the bytes that were sent
/// on it, and the count of datagrams sent.
#[derive(Drop)]
pub struct Seen {
    /// The connection's end.
    pub end: ConnEnd,
    /// The kinds of all entries, a letter each.
    pub kinds: Vec<u8>,
    /// The bytes that were sent on the connection.
    pub sent: Vec<u8>,
    /// The count of datagrams sent.
    pub datagrams: usize,
}

// Serves a connection with the draws of the key.
fn serve_with<R: Wait + Sync>(
    rt: &R,
    solo: &mut Solo,
    kind: DoorKind,
    conn: &mut MemoryConn,
    outlet: &mut MemoryOutlet,
    room: &mut Room,
) -> ConnEnd
    requires free { outlet.old.held ≡ false }
{
    let mut pacer = MemoryPacer::new();
    let mut draws = Draws::make(&KEY, 0);
    serve_connection(
        rt, solo, kind, CLIENT, conn, outlet, &mut pacer, &mut draws, room,
    )
}

// Serves a connection. Returns its end, and the count of datagrams that an outlet sent whose sends
// of these numbers fail.
fn serve_and_count<R: Wait + Sync>(
    rt: &R,
    alloc: Global,
    solo: &mut Solo,
    kind: DoorKind,
    conn: &mut MemoryConn,
    failing_posts: &[u64],
) -> Result<(ConnEnd, usize), Fail> {
    let mut room = Room::make(alloc)?;
    let mut outlet = MemoryOutlet::make(alloc, failing_posts)?;
    let end = serve_with(rt, solo, kind, conn, &mut outlet, &mut room);
    Ok((end, outlet.count()))
}

/// Serves a connection. The outlet's sends of these numbers fail.
pub fn serve<R: Wait + Sync>(
    rt: &R,
    alloc: Global,
    solo: &mut Solo,
    kind: DoorKind,
    mut conn: MemoryConn,
    failing_posts: &[u64],
) -> Result<Seen, Fail> {
    let (end, datagrams) = serve_and_count(rt, alloc, solo, kind, &mut conn, failing_posts)?;
    Ok(Seen {
        end,
        kinds: letters(alloc, solo)?,
        sent: Vec::from_slice(alloc, conn.sent())?,
        datagrams,
    })
}

/// Serves a connection over a new server.
pub fn serve_alone<R: Wait + Sync>(
    rt: &R,
    alloc: Global,
    kind: DoorKind,
    conn: MemoryConn,
) -> Result<Seen, Fail> {
    let mut solo = solo(alloc, None)?;
    serve(rt, alloc, &mut solo, kind, conn, &[])
}

// Creates the first stream and plays it. Gives it eight packets, the last of which is held.
fn begin(solo: &mut Solo, out: &mut Out) -> Result<(), Fail> {
    set_up(solo, out)?;
    tick(solo, 1000, out)?;
    play(solo, out)?;
    for _ in 0..8u8 {
        give(solo, out)?;
    }
    Ok(())
}

// Creates a server that plays the first stream, which holds one packet.
fn playing(alloc: Global) -> Result<Solo, Fail> {
    let mut out = Out::make(alloc)?;
    let mut solo = solo(alloc, None)?;
    begin(&mut solo, &mut out)?;
    Ok(solo)
}

/// Serves an RTSP connection over a server that plays the first stream, which holds one packet. The
/// outlet's sends of these numbers fail.
pub fn serve_playing<R: Wait + Sync>(
    rt: &R,
    alloc: Global,
    conn: MemoryConn,
    failing_posts: &[u64],
) -> Result<Seen, Fail> {
    let mut solo = playing(alloc)?;
    serve(rt, alloc, &mut solo, DoorKind::Rtsp, conn, failing_posts)
}

// Returns the status of a DESCRIBE of the first stream, after a tick at this moment.
fn status_at(alloc: Global, solo: &mut Solo, moment: u64) -> Result<u16, Fail> {
    let mut out = Out::make(alloc)?;
    tick(solo, moment, &mut out)?;
    ask_of_stream(solo, &mut out)
}

// Returns the statuses at each of two moments.
fn statuses_at(alloc: Global, solo: &mut Solo, moments: [u64; 2]) -> Result<[u16; 2], Fail> {
    let first = status_at(alloc, solo, moments[0])?;
    let second = status_at(alloc, solo, moments[1])?;
    Ok([first, second])
}

/// Serves an RTSP connection over a new server. Then executes a DESCRIBE of the first stream after
/// a tick at each of two moments, and returns the statuses.
pub fn serve_and_ask<R: Wait + Sync>(
    rt: &R,
    alloc: Global,
    conn: MemoryConn,
    moments: [u64; 2],
) -> Result<(Seen, [u16; 2]), Fail> {
    let mut solo = solo(alloc, None)?;
    let seen = serve(rt, alloc, &mut solo, DoorKind::Rtsp, conn, &[])?;
    let statuses = statuses_at(alloc, &mut solo, moments)?;
    Ok((seen, statuses))
}
