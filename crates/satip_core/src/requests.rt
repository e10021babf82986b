//! The answers to RTSP and HTTP requests.

ghost use Rattle.std.specs.Prelude.{◌≡◌, [], Some, None, IfSome, is_none, option_map, unwrap_or, false, if◌then◌else◌};
ghost use Rattle.std.specs.Option.{option_map_or};
ghost use Rattle.satip_base.specs.Output.{Wrote, empty};
ghost use Rattle.satip_query.specs.Statuses.{IsStatus};
ghost use Rattle.satip_rtsp.specs.Replies.{options_reply};
ghost use Rattle.satip_rtsp.specs.declared.requests.Method.TheVariants.{Play, Setup};
ghost use Rattle.satip_plain.specs.Types.{Request as PlainRequest, Config as Configured};
ghost use Rattle.satip_plain.specs.declared.answers.Answer.TheVariants.{Replied as AnswerReplied, Get};
ghost use Rattle.satip_plain.specs.State.{State, stream_of};
ghost use Rattle.satip_plain.specs.Sending.{settle};
ghost use Rattle.satip_plain.specs.Refusals.{is_full, session_named as session_named_by};
ghost use Rattle.satip_plain.specs.Steps.{accepted as accepted_of, change_session, done_by, found, hear as heard_in, is_closing as is_closing_request, join, least_free, next_id, no_ports, on_request, play_of, reply_to_refused, setup, on_get, start as started};
ghost use Rattle.satip_state.specs.Asking.{IsUntuned, Asks};
ghost use Rattle.satip_state.specs.Standing.{StandsFor};
ghost use Rattle.satip_core.specs.Doing.{Accepted as IsAccepted, Did, MaySetUp, Ready, SetUpAs, Standing, torn_down};
ghost use Rattle.satip_core.specs.Rows.{id_in};
ghost use Rattle.satip_core.specs.Told.{told};
ghost use Rattle.satip_pids.specs.Pids.{Only};
ghost use Rattle.satip_http.specs.Heads.{http_refusal};
ghost use Rattle.satip_plain.specs.declared.answers.GetAnswer.TheVariants.{Refused as GetRefused};

use crate::deciding::{Accepted, decide, decide_get};
use crate::describing::write_description;
use crate::places::{Party, session_named};
use crate::refusals::{Refused, telling};
use crate::replies::{is_closing, write_full, write_playing, write_refusal, write_set_up};
use satip_base::{Draw, Out, Peer, Ports, SessionId};
use satip_http::{HttpRequest, write_refusal as write_http_refusal, write_start};
use satip_pids::PidSet;
use satip_plain::{GetAnswer, Replied};
use satip_query::RefusalBody;
use satip_rtsp::{Method, Request, write_options, write_plain};
use satip_state::Parts;
use satip_tune::{Config, Tuning};

// The ports of a session that asks for none, and of an HTTP session.
const NO_PORTS: Ports = Ports { rtp: 0, rtcp: 0 };

// Returns the answer to an accepted request.
fn ok() -> Replied
    ensures accepted { result ≡ record { status = 200; closing = false } }
{
    Replied {
        status: 200,
        closing: false,
    }
}

// Returns the id of a session.
fn id_of(session: Option<Party>) -> Option<SessionId>
    ensures id { result ≡ id_in session }
{
    match session {
        None => None,
        Some(session) => Some(session.id),
    }
}

// Returns the named session, if the message itself is well-formed.
fn heard_id(parts: &Parts, request: &Request) -> Option<SessionId>
    ensures heard { (c : Configured) (st : State) → StandsFor c parts.now st
        → result ≡ (if is_none request.now.refusal then option_map (λ s. s.id)
        (session_named_by st request.now.session) else None) }
{
    let id = id_of(session_named(parts, request.session));
    match request.refusal {
        None => id,
        Some(_) => None,
    }
}

// Sets the last activity of a session, if there is one.
fn hear(parts: &mut Parts, id: Option<SessionId>)
    ensures heard { (c : Configured) (st : State) → StandsFor c parts.old st
        → StandsFor c parts.new (option_map_or (λ id. heard_in id st) id st) }
{
    match id {
        None => (),
        Some(id) => parts.hear(id),
    }
}

// Writes the reply to a refused request.
fn refuse(request: &Request, refused: &Refused, out: &mut Out) -> Replied
    requires cleared { out.old ≡ empty }
    requires status { IsStatus refused.now.status }
    ensures answer { result ≡ record {
      status = refused.now.status;
      closing = is_closing_request
          request.now;
    } }
    ensures wrote { Wrote out.old (reply_to_refused request.now (told refused.now)) out.new }
{
    write_refusal(request, refused, out);
    Replied {
        status: refused.status,
        closing: is_closing(request),
    }
}

// Writes the reply to OPTIONS. `id` is that of the named session.
#[tactic(auto, using(satip_rtsp::proofs::ReplyLemmas::reply_bounds))]
fn options(cseq: Option<u32>, id: Option<SessionId>, out: &mut Out) -> Replied
    requires cleared { out.old ≡ empty }
    ensures answer { result ≡ record { status = 200; closing = false } }
    ensures wrote { Wrote out.old (options_reply cseq id) out.new }
{
    write_options(cseq, id, out);
    ok()
}

// Writes the reply to TEARDOWN, then ends the session.
#[tactic(auto, using(satip_rtsp::proofs::ReplyLemmas::reply_bounds))]
fn teardown(parts: &mut Parts, cseq: Option<u32>, id: Option<SessionId>, out: &mut Out) -> Replied
    requires cleared { out.old ≡ empty }
    ensures did { (c : Configured) (st : State) → StandsFor c parts.old st
        → Did c parts.new (AnswerReplied result) out.new (torn_down cseq st id) }
{
    match id {
        None => ok(),
        Some(id) => {
            write_plain(cseq, 200, out);
            let _lived = parts.end_session(id, out);
            ok()
        }
    }
}

// Returns the ports of a SETUP.
fn ports_of(ports: Option<Ports>) -> Ports
    ensures ports { result ≡ unwrap_or ports no_ports }
{
    match ports {
        None => NO_PORTS,
        Some(ports) => ports,
    }
}

// Sets the client and the ports that the session's datagrams go to.
fn move_session(
    parts: &mut Parts,
    id: SessionId,
    peer: Peer,
    ports: Ports,
    stream: Option<u16>,
) -> Option<(SessionId, u16)>
    ensures given { result ≡ option_map (λ number. (id, number)) stream }
    ensures moved { (c : Configured) (st : State) → StandsFor c parts.old st
        → StandsFor c parts.new (change_session id (λ s. record s { peer = peer; ports = ports })
        st) }
{
    parts.move_to(id, peer, ports);
    match stream {
        None => None,
        Some(number) => Some((id, number)),
    }
}

// Creates a session that joins the stream, or one with a new stream if none is named.
fn make_session(
    parts: &mut Parts,
    peer: Peer,
    draw: Draw,
    ports: Ports,
    stream: Option<u16>,
) -> Option<(SessionId, u16)>
    ensures given { (c : Configured) (st : State) → StandsFor c parts.old st → is_full st ≡ false
        → IfSome stream (λ number. is_none (stream_of st number) ≡ false)
        → result ≡ Some (next_id st draw, unwrap_or stream (least_free st.streams)) }
    ensures made { (c : Configured) (st : State) → StandsFor c parts.old st → is_full st ≡ false
        → IfSome stream (λ number. is_none (stream_of st number) ≡ false)
        → StandsFor c parts.new (option_map_or (λ number. join false peer draw ports number st)
        stream (found false peer draw ports st)) }
    ensures untuned { (c : Configured) (st : State) → StandsFor c parts.old st → is_full st ≡ false
        → stream ≡ None → IsUntuned (found false peer draw ports st) (least_free st.streams) }
{
    match stream {
        None => parts.found(false, peer, draw, ports),
        Some(number) => match parts.join(peer, draw, ports, number) {
            None => None,
            Some(id) => Some((id, number)),
        },
    }
}

// Creates the session of a SETUP, or moves the named one, whose id is `id`; returns its id and the
// number of its stream. Returns None if no session can be created, or an existing one is named
// without a stream.
fn place_session(
    parts: &mut Parts,
    peer: Peer,
    draw: Draw,
    ports: Ports,
    stream: Option<u16>,
    id: Option<SessionId>,
) -> Option<(SessionId, u16)>
    ensures placed { (c : Configured) (st : State) (r : PlainRequest) → StandsFor c parts.old st
        → MaySetUp st r → r.stream ≡ stream
        → id ≡ option_map (λ s. s.id) (session_named_by st r.session)
        → SetUpAs c parts.new peer draw ports r st result }
{
    match id {
        Some(id) => move_session(parts, id, peer, ports, stream),
        None => make_session(parts, peer, draw, ports, stream),
    }
}

// Executes SETUP (RFC 2326, section 10.4).
fn set_up(
    config: &Config,
    parts: &mut Parts,
    peer: Peer,
    draw: Draw,
    request: &Request,
    accepted: &Accepted,
    pids: &PidSet,
    out: &mut Out,
) -> Replied
    requires cleared { out.old ≡ empty }
    ensures did { (st : State) → StandsFor config.now parts.old st → MaySetUp st request.now
        → request.now.method ≡ Setup
        → IsAccepted config.now st request.now accepted.now pids.now
        → Did config.now parts.new (AnswerReplied result) out.new
        (setup config.now peer draw request.now st) }
{
    let ports = ports_of(request.ports);
    let id = id_of(accepted.session);
    match place_session(parts, peer, draw, ports, request.stream, id) {
        None => {
            write_full(request.cseq, out);
            Replied {
                status: 503,
                closing: false,
            }
        }
        Some((id, number)) => {
            write_set_up(request.cseq, id, config.timeout, ports, number, out);
            parts.change_by(number, &request.query, accepted.tuning, pids, out);
            ok()
        }
    }
}

// Executes PLAY (RFC 2326, section 10.5). Its reply has the sequence number of the next datagram.
fn play(
    config: &Config,
    parts: &mut Parts,
    request: &Request,
    accepted: &Accepted,
    pids: &PidSet,
    out: &mut Out,
) -> Replied
    requires cleared { out.old ≡ empty }
    requires ready { Ready config.now parts.old request.now accepted.now pids.now }
    requires method { request.now.method ≡ Play }
    ensures did { (st : State) → StandsFor config.now parts.old st
        → IsAccepted config.now st request.now accepted.now pids.now
        → Did config.now parts.new (AnswerReplied result) out.new
        (option_map_or (play_of config.now request.now st)
        (session_named_by st request.now.session) (accepted_of (settle st) [])) }
{
    match accepted.session {
        None => ok(),
        Some(session) => {
            parts.change_by(session.stream, &request.query, accepted.tuning, pids, out);
            parts.play(session.id);
            let seq = parts.next_number(session.id);
            write_playing(
                request.cseq,
                session.id,
                config.address,
                session.stream,
                seq,
                out,
            );
            ok()
        }
    }
}

// Executes an accepted request.
fn accept(
    config: &Config,
    parts: &mut Parts,
    peer: Peer,
    draw: Draw,
    request: &Request,
    accepted: &Accepted,
    pids: &PidSet,
    out: &mut Out,
) -> Replied
    requires cleared { out.old ≡ empty }
    requires ready { Ready config.now parts.old request.now accepted.now pids.now }
    ensures did { (st : State) → StandsFor config.now parts.old st
        → IsAccepted config.now st request.now accepted.now pids.now
        → Did config.now parts.new (AnswerReplied result) out.new
        (done_by request.now.method config.now peer draw request.now st) }
{
    match request.method {
        Method::Options => options(request.cseq, id_of(accepted.session), out),
        Method::Describe => {
            write_description(config, parts, request.cseq, request.stream, out);
            ok()
        }
        Method::Setup => set_up(config, parts, peer, draw, request, accepted, pids, out),
        Method::Play => play(config, parts, request, accepted, pids, out),
        Method::Teardown => teardown(parts, request.cseq, id_of(accepted.session), out),
    }
}

/// Answers an RTSP request. Sets the last activity of a session that it names, if the message
/// itself is well-formed. `pids` gets the PIDs that it asks for.
pub fn answer_request(
    config: &Config,
    parts: &mut Parts,
    peer: Peer,
    draw: Draw,
    request: &Request,
    pids: &mut PidSet,
    out: &mut Out,
) -> Replied
    requires cleared { out.old ≡ empty }
    requires standing { Standing config.now parts.old }
    ensures did { (st : State) → StandsFor config.now parts.old st
        → Did config.now parts.new (AnswerReplied result) out.new
        (on_request config.now peer draw request.now st) }
{
    match decide(parts, request, pids) {
        Err(refused) => {
            let id = heard_id(parts, request);
            hear(parts, id);
            refuse(request, &refused, out)
        }
        Ok(accepted) => {
            hear(parts, id_of(accepted.session));
            accept(config, parts, peer, draw, request, &accepted, pids, out)
        }
    }
}

// Writes the refusal of a request.
#[tactic(auto, using(satip_http::proofs::HeadLemmas::head_bounds))]
fn refuse_get(refused: Refused, out: &mut Out) -> GetAnswer
    requires cleared { out.old ≡ empty }
    requires status { IsStatus refused.status }
    ensures answer { result ≡ GetRefused refused.status }
    ensures wrote { Wrote out.old (http_refusal refused.status refused.body) out.new }
{
    write_http_refusal(refused.status, refused.body, out);
    GetAnswer::Refused(refused.status)
}

// Starts a session with a new stream.
#[tactic(auto, using(satip_http::proofs::HeadLemmas::head_bounds))]
fn start(
    config: &Config,
    parts: &mut Parts,
    peer: Peer,
    draw: Draw,
    request: &HttpRequest,
    tuning: Option<Tuning>,
    pids: &PidSet,
    out: &mut Out,
) -> GetAnswer
    requires cleared { out.old ≡ empty }
    ensures did { (st : State) → StandsFor config.now parts.old st → is_full st ≡ false
        → Asks None (Only []) request.now.query tuning pids.now
        → Did config.now parts.new (Get result) out.new
        (started config.now peer draw request.now st) }
{
    match parts.found(true, peer, draw, NO_PORTS) {
        None => refuse_get(telling(503, RefusalBody::NoMoreSessions), out),
        Some((id, number)) => {
            write_start(out);
            parts.change_by(number, &request.query, tuning, pids, out);
            GetAnswer::Started(id)
        }
    }
}

/// Answers an HTTP request. `pids` gets the PIDs that it asks for.
pub fn answer_get(
    config: &Config,
    parts: &mut Parts,
    peer: Peer,
    draw: Draw,
    request: &HttpRequest,
    pids: &mut PidSet,
    out: &mut Out,
) -> GetAnswer
    requires cleared { out.old ≡ empty }
    ensures did { (st : State) → StandsFor config.now parts.old st
        → Did config.now parts.new (Get result) out.new
        (on_get config.now peer draw request.now st) }
{
    match decide_get(parts, request, pids) {
        Err(refused) => refuse_get(refused, out),
        Ok(tuning) => start(config, parts, peer, draw, request, tuning, pids, out),
    }
}
