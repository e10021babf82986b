//! Sessions, the data of a new one, and the changes of one.

ghost use Rattle.std.specs.Prelude.{◌≡◌, ◌+◌, ◌<◌};
ghost use Rattle.satip_table.specs.Sessions.{has_id_of, following_id, session_of};
ghost use Rattle.satip_table.specs.Changes.{changed_by};
ghost use Rattle.satip_table.specs.Seated.{nobody};

use satip_base::{Draw, Peer, Ports, SessionId};

/// A living session. `http` is whether it is over HTTP; its ports are then 0 and 0. `heard` is its
/// last activity and `reported` its last report, in milliseconds. `ssrc` and `first` are its SSRC
/// and first sequence number (RFC 3550, 5.1).
#[derive(Clone, Copy, Debug, PartialEq, Eq)]
pub struct Session {
    pub id: SessionId,
    pub http: bool,
    pub peer: Peer,
    pub ports: Ports,
    pub stream: u16,
    pub playing: bool,
    pub heard: u64,
    pub reported: Option<u64>,
    pub ssrc: u32,
    pub first: u16,
}

/// The data of a new session, before it has an id and a stream.
#[derive(Clone, Copy, Debug, PartialEq, Eq)]
pub struct NewSession {
    pub http: bool,
    pub peer: Peer,
    pub ports: Ports,
    pub draw: Draw,
    pub heard: u64,
}

/// A session with its slot, as contracts see it.
#[derive(Clone, Copy, Debug, PartialEq, Eq)]
pub struct Seat {
    pub slot: u16,
    pub session: Session,
}

/// Returns the content of a slot that had no session yet.
pub fn no_session() -> Session
    ensures none { result ≡ nobody }
{
    Session {
        id: SessionId { count: 0, word: 0 },
        http: false,
        peer: Peer { ip: 0 },
        ports: Ports { rtp: 0, rtcp: 0 },
        stream: 0,
        playing: false,
        heard: 0,
        reported: None,
        ssrc: 0,
        first: 0,
    }
}

/// Returns the id of the next session after `made` ones.
#[tactic(auto, unfolding(crate::specs::Sessions::following_id))]
pub fn next_id(made: u32, session: &NewSession) -> SessionId
    requires some_left { made < 4294967295 }
    ensures id { result ≡ following_id made session.now }
{
    SessionId {
        count: made + 1,
        word: session.draw.word,
    }
}

/// Returns the next session after `made` ones, at this stream. An HTTP session plays at once.
#[tactic(auto, unfolding(crate::specs::Sessions::session_of))]
pub fn new_session(made: u32, session: &NewSession, stream: u16) -> Session
    requires some_left { made < 4294967295 }
    ensures session { result ≡ session_of made session.now stream }
{
    Session {
        id: next_id(made, session),
        http: session.http,
        peer: session.peer,
        ports: session.ports,
        stream,
        playing: session.http,
        heard: session.heard,
        reported: None,
        ssrc: session.draw.ssrc,
        first: session.draw.first,
    }
}

/// Returns whether the session has this id.
pub fn has_id(seat: &Seat, id: SessionId) -> bool
    ensures has { result ≡ has_id_of id seat.now }
{
    seat.session.id == id
}

/// A change of a living session.
#[derive(Clone, Copy)]
pub enum Change {
    /// Its last activity was at this moment, in milliseconds.
    Heard(u64),
    /// It plays.
    Playing,
    /// Its datagrams go to these ports of this peer.
    Address(Peer, Ports),
    /// Its last report was at this moment, in milliseconds.
    Reported(u64),
}

/// Applies a change to a session.
#[tactic(auto, unfolding(crate::specs::Sessions::heard_at, crate::specs::Sessions::played, crate::specs::Sessions::moved_to, crate::specs::Sessions::reported_at))]
pub fn apply(session: &mut Session, to: Change)
    ensures changed { session.new ≡ changed_by to session.old }
{
    match to {
        Change::Heard(now) => session.heard = now,
        Change::Playing => session.playing = true,
        Change::Address(peer, ports) => {
            session.peer = peer;
            session.ports = ports;
        }
        Change::Reported(now) => session.reported = Some(now),
    }
}
