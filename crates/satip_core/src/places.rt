//! The session and the stream that a request names, and whether it may change that stream.

ghost use Rattle.std.specs.Prelude.{◌≡◌, ℕ, None, Some, IfSome, false, is_none, option_map, if◌then◌else◌};
ghost use Rattle.std.specs.Option.{option_map_or};
ghost use Rattle.satip_plain.specs.Types.{Config};
ghost use Rattle.satip_plain.specs.State.{State, stream_of};
ghost use Rattle.satip_rtsp.specs.Methods.{needs_session as needs_one};
ghost use Rattle.satip_plain.specs.Refusals.{not_owner as is_not_owner, number_meant as number_meant_by, session_missing as is_session_missing, session_named as session_named_by, stream_meant as stream_meant_by, stream_missing as is_stream_missing, stream_of_another as is_stream_of_another};
ghost use Rattle.satip_core.specs.RefusalRows.{IsRtsp, NamesSession, number_in, of_another, owns_of, party_of};
ghost use Rattle.satip_state.specs.Standing.{StandsFor, stream_in};

use satip_base::SessionId;
use satip_rtsp::{Request, SessionName};
use satip_state::Parts;
use satip_table::Stream;

/// A living RTSP session: its id, and the number of its stream.
#[derive(Clone, Copy, Debug, PartialEq, Eq)]
pub struct Party {
    pub id: SessionId,
    pub stream: u16,
}

/// Returns the living RTSP session that a request names.
pub fn session_named(parts: &Parts, name: SessionName) -> Option<Party>
    ensures named { (c : Config) (st : State) → StandsFor c parts.now st
        → result ≡ option_map party_of (session_named_by st name) }
    ensures found { (c : Config) (st : State) → StandsFor c parts.now st
        → IfSome result (IsRtsp st) }
{
    let SessionName::Named(id) = name else {
        return None;
    };
    match parts.rtsp_session(id) {
        None => None,
        Some(session) => Some(Party {
            id: session.id,
            stream: session.stream,
        }),
    }
}

/// Returns whether the named session isn't alive, or a needed session isn't named. `session` is the
/// one that the request names.
pub fn session_missing(request: &Request, session: Option<Party>) -> bool
    ensures missing { (st : State) → NamesSession st request.now session
        → result ≡ is_session_missing st request.now }
{
    if request.session.names_none() {
        request.method.needs_session()
    } else {
        session.is_none()
    }
}

// Returns whether the named stream isn't alive; `otherwise` if none is named. `stream` is the one
// that is named.
fn is_absent(named: Option<u16>, stream: Option<&Stream>, otherwise: bool) -> bool
    ensures absent { (st : State) → ((number : ℕ) → named ≡ Some number
        → option_map (λ s. stream_in s.now) stream.entry ≡ stream_of st number)
        → result ≡ option_map_or (λ number. is_none (stream_of st number)) named otherwise }
{
    match named {
        None => otherwise,
        Some(_) => stream.is_none(),
    }
}

/// Returns whether the named stream isn't alive, or DESCRIBE names none and none is alive. `stream`
/// is the request's stream.
pub fn stream_missing(parts: &Parts, request: &Request, stream: Option<&Stream>) -> bool
    ensures missing { (c : Config) (st : State) → StandsFor c parts.now st
        → option_map (λ s. stream_in s.now) stream.entry ≡ stream_meant_by st request.now
        → result ≡ is_stream_missing st request.now }
{
    let none = request.method.is_describe() & parts.has_no_streams();
    request.method.looks_at_stream() & is_absent(request.stream, stream, none)
}

// Returns whether both are given, and the stream isn't the session's.
fn is_of_another(session: Option<Party>, stream: Option<u16>) -> bool
    ensures another { result ≡ of_another session stream }
{
    let Some(session) = session else {
        return false;
    };
    match stream {
        None => false,
        Some(number) => session.stream != number,
    }
}

/// Returns whether a session and a stream are named, and the stream isn't the session's.
pub fn stream_of_another(request: &Request, session: Option<Party>) -> bool
    ensures another { (st : State) → NamesSession st request.now session
        → result ≡ is_stream_of_another st request.now }
{
    let used = request.method.is_setup() | request.method.needs_session();
    if !used {
        return false;
    }
    is_of_another(session, request.stream)
}

// Returns the number of the session's stream, for a method that needs a session.
fn own_number(request: &Request, session: Option<Party>) -> Option<u16>
    ensures number { (st : State) → NamesSession st request.now session
        → result ≡ (if needs_one request.now.method
        then option_map (λ s. s.stream) (session_named_by st request.now.session) else None) }
{
    if !request.method.needs_session() {
        return None;
    }
    match session {
        None => None,
        Some(session) => Some(session.stream),
    }
}

/// Returns the number of a request's stream: the named one; else for PLAY and TEARDOWN the
/// session's.
pub fn number_meant(request: &Request, session: Option<Party>) -> Option<u16>
    ensures number { (st : State) → NamesSession st request.now session
        → result ≡ number_meant_by st request.now }
{
    match request.stream {
        Some(number) => Some(number),
        None => own_number(request, session),
    }
}

/// Returns that stream, if it is alive.
pub fn stream_meant<'a>(
    parts: &'a Parts,
    request: &Request,
    session: Option<Party>,
) -> Option<&'a Stream>
    ensures stream { (c : Config) (st : State) → StandsFor c parts.now st
        → NamesSession st request.now session
        → option_map (λ s. stream_in s.now) result ≡ stream_meant_by st request.now }
{
    match number_meant(request, session) {
        None => None,
        Some(number) => parts.stream(number),
    }
}

// Returns whether the session is the owner.
fn is_owner(owner: Option<SessionId>, session: Option<Party>) -> bool
    ensures owns { result ≡ owns_of session owner }
{
    let Some(session) = session else {
        return false;
    };
    match owner {
        None => false,
        Some(owner) => owner == session.id,
    }
}

/// Returns whether a known key is given for a living stream, but not by its owner (SAT>IP 1.2.2,
/// 3.5.4).
pub fn not_owner(
    parts: &Parts,
    request: &Request,
    session: Option<Party>,
    stream: Option<&Stream>,
) -> bool
    ensures other { (c : Config) (st : State) → StandsFor c parts.now st
        → NamesSession st request.now session
        → option_map (λ s. stream_in s.now) stream.entry ≡ stream_meant_by st request.now
        → result ≡ is_not_owner st request.now }
{
    let given = request.method.changes() & request.query.any();
    if !given {
        return false;
    }
    match stream {
        None => false,
        Some(stream) => !is_owner(parts.owner(stream.number), session),
    }
}
