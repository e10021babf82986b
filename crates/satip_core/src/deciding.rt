//! Which requests are refused, and why: the first cause counts.

ghost use Rattle.std.specs.Prelude.{◌≡◌, [], IfErr, IfOk, IfSome, None, option_map, true, false};
ghost use Rattle.std.specs.Result.{result_err};
ghost use Rattle.satip_pids.specs.Pids.{Only};
ghost use Rattle.satip_query.specs.Statuses.{IsStatus};
ghost use Rattle.satip_rtsp.specs.Methods.{changes};
ghost use Rattle.satip_plain.specs.Types.{Config};
ghost use Rattle.satip_plain.specs.State.{State};
ghost use Rattle.satip_plain.specs.Refusals.{decide as decision, decide_get as get_decision, first_given, stream_meant as stream_meant_by, makes_session as makes_one, of_change as change_refused};
ghost use Rattle.satip_state.specs.Asking.{Asks};
ghost use Rattle.satip_state.specs.Standing.{StandsFor, stream_in};
ghost use Rattle.satip_core.specs.Finding.{AsksOf, Finds};
ghost use Rattle.satip_core.specs.Places.{names_before, of_asked, of_names, setup_before};
ghost use Rattle.satip_core.specs.RefusalRows.{NamesSession};
ghost use Rattle.satip_core.specs.Told.{told_if};
ghost use Rattle.std.specs.Option.{option_map_or};
ghost use Rattle.satip_state.specs.Looks.{is_blocked, outlook_for};

use crate::places::{
    Party, not_owner, session_missing, session_named, stream_meant, stream_missing,
    stream_of_another,
};
use crate::refusals::{Refused, of_http_message, of_message, of_pids, of_tuning, plainly, telling};
use satip_http::HttpRequest;
use satip_pids::PidSet;
use satip_query::{Query, RefusalBody};
use satip_rtsp::Request;
use satip_state::{Parts, ask_pids, changed_tuning, to_set};
use satip_table::Stream;
use satip_tune::Tuning;

/// What an accepted request names and changes: its session, and the tuning that SETUP or PLAY sets.
#[derive(Clone, Copy, Debug, PartialEq, Eq)]
pub struct Accepted {
    pub session: Option<Party>,
    pub tuning: Option<Tuning>,
}

/// Returns what an accepted request needs, or the refusal of a request. `pids` are then the PIDs
/// after the query of an accepted SETUP or PLAY, if it gives a list of them. The first of these
/// causes of a refusal counts:
/// - a fault of the message itself;
/// - a session that isn't alive, or none if one is needed (454);
/// - a stream that isn't alive (404);
/// - a stream of another session (454);
/// - a change of a stream that the session doesn't own (403);
/// - SETUP that names a session and no stream (455), or that has no usable ports (461);
/// - for SETUP and PLAY: a missing key (400), PIDs (403, 503), no session or front end left (503).
pub fn decide(parts: &Parts, request: &Request, pids: &mut PidSet) -> Result<Accepted, Refused>
    ensures known { IfErr result (λ refused. IsStatus refused.status) }
    ensures decided { (c : Config) (st : State) → StandsFor c parts.now st
        → told_if (result_err result) ≡ decision c st request.now }
    ensures found { (c : Config) (st : State) → StandsFor c parts.now st
        → IfOk result (λ accepted. Finds st request.now accepted pids.new) }
{
    match &request.refusal {
        Some(refusal) => Err(of_message(refusal)),
        None => decide_message(parts, request, pids),
    }
}

// Decides a message without a fault.
fn decide_message(parts: &Parts, request: &Request, pids: &mut PidSet) -> Result<Accepted, Refused>
    ensures known { IfErr result (λ refused. IsStatus refused.status) }
    ensures decided { (c : Config) (st : State) → StandsFor c parts.now st
        → told_if (result_err result) ≡ first_given (of_names c st request.now) }
    ensures found { (c : Config) (st : State) → StandsFor c parts.now st
        → IfOk result (λ accepted. Finds st request.now accepted pids.new) }
{
    let session = session_named(parts, request.session);
    let stream = stream_meant(parts, request, session);
    if let Some(refused) = refuse_names(parts, request, session, stream) {
        return Err(refused);
    }
    if let Some(refused) = refuse_setup(request) {
        return Err(refused);
    }
    match decide_asked(parts, request, stream, pids) {
        Ok(tuning) => Ok(Accepted { session, tuning }),
        Err(refused) => Err(refused),
    }
}

// Returns the refusal of the session and stream that a request names.
fn refuse_names(
    parts: &Parts,
    request: &Request,
    session: Option<Party>,
    stream: Option<&Stream>,
) -> Option<Refused>
    ensures known { IfSome result (λ refused. IsStatus refused.status) }
    ensures refused { (c : Config) (st : State) → StandsFor c parts.now st
        → NamesSession st request.now session
        → option_map (λ s. stream_in s.now) stream.entry ≡ stream_meant_by st request.now
        → told_if result ≡ first_given (names_before st request.now) }
{
    if session_missing(request, session) {
        return Some(plainly(454));
    }
    if stream_missing(parts, request, stream) {
        return Some(plainly(404));
    }
    if stream_of_another(request, session) {
        return Some(plainly(454));
    }
    if not_owner(parts, request, session, stream) {
        return Some(telling(403, RefusalBody::NotOwner));
    }
    None
}

// Returns the refusal of a SETUP that lacks a stream or ports.
fn refuse_setup(request: &Request) -> Option<Refused>
    ensures known { IfSome result (λ refused. IsStatus refused.status) }
    ensures refused { told_if result ≡ first_given (setup_before request.now) }
{
    let setup = request.method.is_setup();
    let nowhere = setup && !request.session.names_none() && request.stream.is_none();
    if nowhere {
        return Some(plainly(455));
    }
    let portless = setup && request.ports.is_none();
    if portless {
        return Some(plainly(461));
    }
    None
}

// Returns whether a tuning is to be set, and each fitting front end is taken.
fn front_missing(parts: &Parts, stream: Option<u16>, tuning: &Option<Tuning>) -> bool
    ensures missing { (c : Config) (st : State) → StandsFor c parts.now st
        → result ≡ option_map_or (is_blocked c st stream) tuning.now false }
{
    match tuning {
        None => false,
        Some(tuning) => parts.is_blocked(stream, tuning),
    }
}

// Decides a query for a stream with this number, tuning and PIDs; `stream` is None for one that
// isn't created yet. `makes`: the query also creates a session. Returns the tuning to set, or the
// refusal; `pids` are then the PIDs after the query, if it gives a list of them.
fn decide_change(
    parts: &Parts,
    stream: Option<u16>,
    tuning: Option<Tuning>,
    own: &PidSet,
    makes: bool,
    query: &Query,
    pids: &mut PidSet,
) -> Result<Option<Tuning>, Refused>
    ensures known { IfErr result (λ refused. IsStatus refused.status) }
    ensures refused { (c : Config) (st : State) → StandsFor c parts.now st
        → told_if (result_err result) ≡ first_given (change_refused c st (outlook_for c st stream)
        tuning own.now makes query.now) }
    ensures asked { IfOk result (λ set. Asks tuning own.now query.now set pids.new) }
{
    let set = match to_set(tuning, &query.change) {
        Ok(set) => set,
        Err(key) => return Err(telling(400, RefusalBody::CheckSyntax(key))),
    };
    if let Some(refused) = of_pids(ask_pids(pids, own, query)) {
        return Err(refused);
    }
    let full = makes & parts.is_full();
    if full {
        return Err(telling(503, RefusalBody::NoMoreSessions));
    }
    if front_missing(parts, stream, &set) {
        return Err(telling(503, RefusalBody::NoMoreFrontends));
    }
    Ok(set)
}

// Returns whether a SETUP creates a session.
fn makes_session(request: &Request) -> bool
    ensures makes { result ≡ makes_one request.now }
{
    request.method.is_setup() && request.session.names_none()
}

// Decides what a request asks for of its stream, or of a new one: returns the tuning to set, or the
// refusal. `pids` are then the PIDs after the query, if it gives a list of them.
fn decide_asked(
    parts: &Parts,
    request: &Request,
    stream: Option<&Stream>,
    pids: &mut PidSet,
) -> Result<Option<Tuning>, Refused>
    ensures known { IfErr result (λ refused. IsStatus refused.status) }
    ensures refused { (c : Config) (st : State) → StandsFor c parts.now st
        → option_map (λ s. stream_in s.now) stream.entry ≡ stream_meant_by st request.now
        → told_if (result_err result) ≡ first_given (of_asked c st request.now) }
    ensures asked { changes request.now.method ≡ true → IfOk result (λ tuning.
        AsksOf (option_map (λ s. stream_in s.now) stream.entry) request.now.query tuning
        pids.new) }
{
    if !request.method.changes() {
        return Ok(None);
    }
    let makes = makes_session(request);
    match stream {
        None => decide_change(
            parts,
            None,
            None,
            &PidSet::new(),
            makes,
            &request.query,
            pids,
        ),
        Some(stream) => decide_change(
            parts,
            Some(stream.number),
            stream.tuning,
            &stream.pids,
            makes,
            &request.query,
            pids,
        ),
    }
}

/// Returns the tuning that an accepted HTTP request sets for a new stream, or the refusal of a
/// request. `pids` are then the PIDs of the stream, if the query gives a list of them.
pub fn decide_get(
    parts: &Parts,
    request: &HttpRequest,
    pids: &mut PidSet,
) -> Result<Option<Tuning>, Refused>
    ensures known { IfErr result (λ refused. IsStatus refused.status) }
    ensures decided { (c : Config) (st : State) → StandsFor c parts.now st
        → told_if (result_err result) ≡ get_decision c st request.now }
    ensures asked { IfOk result (λ tuning. Asks None (Only []) request.now.query tuning pids.new) }
{
    if let Some(refusal) = &request.refusal {
        return Err(of_http_message(refusal));
    }
    let first = changed_tuning(None, &request.query.change);
    if let Some(refused) = of_tuning(first) {
        return Err(refused);
    }
    decide_change(
        parts,
        None,
        None,
        &PidSet::new(),
        true,
        &request.query,
        pids,
    )
}
