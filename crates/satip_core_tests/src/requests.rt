//! What requests change, of sessions and streams that can be followed by hand.

ghost use Rattle.std.specs.Prelude.{◌<◌, ◌≤◌, length};

use crate::checks::check;
use crate::given::output;
use satip_base::{Draw, Out, Peer, Ports, SessionId};
use satip_fixtures::{DRAW, FIRST_MUX, PORTS, SECOND_MUX, config_with};
use satip_pids::{PidList, PidSet};
use satip_query::{PidsGiven, Query};
use satip_state::{Parts, ask_pids, to_set};
use satip_tune::{Mux, Tuning};
use std::alloc::Global;
use std::process::Abort;

/// Creates parts with this many front ends and these multiplexes, a timeout of 60 seconds, from
/// moment 1000 on.
pub(crate) fn parts_with(rt: &impl Abort, alloc: Global, fronts: u16, muxes: &[Mux]) -> Parts
    requires few { fronts ≤ 16 }
    requires received { length muxes.now ≤ 256 }
{
    let Ok(config) = config_with(alloc, fronts, muxes) else {
        panic!(rt; "out of memory");
    };
    Parts::make(alloc, config.fronts, config.muxes, 60, 1000).expect(rt, "out of memory")
}

// Creates parts with two front ends and two multiplexes.
fn parts(rt: &impl Abort, alloc: Global) -> Parts {
    parts_with(rt, alloc, 2, &[FIRST_MUX, SECOND_MUX])
}

fn draw(word: u32) -> Draw {
    Draw { word, ..DRAW }
}

// Creates a session with this word, and its stream. Returns the stream's number too.
fn found(parts: &mut Parts, http: bool, word: u32) -> Option<(SessionId, u16)> {
    parts.found(http, Peer { ip: 7 }, draw(word), PORTS)
}

/// Creates a session with this word, for which there is room, and its stream. Returns the stream's
/// number too.
pub(crate) fn found_one(
    rt: &impl Abort,
    parts: &mut Parts,
    http: bool,
    word: u32,
) -> (SessionId, u16) {
    found(parts, http, word).expect(rt, "room")
}

/// Returns a query for this multiplex, at any front end.
pub(crate) fn query(mux: Mux) -> Query {
    let mut query = Query::new();
    query.change.freq = Some(mux.freq);
    query.change.pol = Some(mux.pol);
    query.change.msys = Some(mux.msys);
    query.change.sr = Some(mux.sr);
    query
}

/// Changes a stream by a query; a refused one changes nothing. `out` has what is sent.
pub(crate) fn change(parts: &mut Parts, out: &mut Out, number: u16, query: &Query) {
    out.clear();
    let mut pids = PidSet::new();
    let Some(stream) = parts.stream(number) else {
        return;
    };
    let Ok(tuning) = to_set(stream.tuning, &query.change) else {
        return;
    };
    if ask_pids(&mut pids, &stream.pids, query).is_some() {
        return;
    }
    parts.change_by(number, query, tuning, &pids, out);
}

// Returns the front end and the frequency of a stream.
fn tuned(parts: &Parts, number: u16) -> Option<(u16, u32)> {
    let stream = parts.stream(number)?;
    let tuning: Tuning = stream.tuning?;
    Some((stream.front?, tuning.freq))
}

fn sixteen() -> PidList {
    let mut pids = PidList::new();
    pids.push(16);
    pids
}

// Creates a stream, tunes it to the first multiplex and adds PID 16.
fn add_sixteen(rt: &impl Abort, parts: &mut Parts, out: &mut Out) {
    found_one(rt, parts, false, 10);
    let mut asked = query(FIRST_MUX);
    asked.addpids = Some(sixteen());
    change(parts, out, 1, &asked);
}

// Asks for all PIDs without PID 16, which is refused.
fn refuse_all(parts: &mut Parts, out: &mut Out) {
    let mut refused = Query::new();
    refused.pids = PidsGiven::All;
    refused.delpids = Some(sixteen());
    change(parts, out, 1, &refused);
}

// Returns whether the first stream selects a PID.
fn has_pid(parts: &Parts, pid: u16) -> bool
    requires below { pid < 8192 }
{
    match parts.stream(1) {
        Some(stream) => stream.pids.has(pid),
        None => false,
    }
}

#[test]
fn the_first_session_founds_the_first_stream(rt: HostRuntime) {
    let mut parts = parts(&rt, rt.alloc());
    let found = found_one(&rt, &mut parts, false, 10);
    check(&rt, "found", found, (SessionId { count: 1, word: 10 }, 1));
    check(&rt, "tuning", tuned(&parts, 1), None);
}

#[test]
fn a_query_tunes_a_founded_stream(rt: HostRuntime) {
    let mut out = output(&rt, rt.alloc());
    let mut parts = parts(&rt, rt.alloc());
    add_sixteen(&rt, &mut parts, &mut out);
    check(&rt, "datagrams", out.count(), 0);
    check(&rt, "tuning", tuned(&parts, 1), Some((1, 11361750)));
    let selected = [has_pid(&parts, 16), has_pid(&parts, 17)];
    check(&rt, "PIDs 16 and 17", selected, [true, false]);
}

#[test]
fn a_refused_query_selects_no_more_pids(rt: HostRuntime) {
    let mut out = output(&rt, rt.alloc());
    let mut parts = parts(&rt, rt.alloc());
    add_sixteen(&rt, &mut parts, &mut out);
    refuse_all(&mut parts, &mut out);
    check(&rt, "PID 17", has_pid(&parts, 17), false);
}

// Plays a session, moves it to this peer and these ports, and marks it as active.
fn play_and_move(parts: &mut Parts, id: SessionId, peer: Peer, ports: Ports) {
    parts.play(id);
    parts.move_to(id, peer, ports);
    parts.hear(id);
}

#[test]
fn a_session_plays_to_where_it_moved(rt: HostRuntime) {
    let mut parts = parts(&rt, rt.alloc());
    let (id, _) = found_one(&rt, &mut parts, false, 10);
    let peer = Peer { ip: 8 };
    let ports = Ports { rtp: 5, rtcp: 6 };
    play_and_move(&mut parts, id, peer, ports);
    let session = parts.rtsp_session(id).expect(&rt, "lives");
    let moved = (session.playing, session.peer, session.ports);
    check(&rt, "session", moved, (true, peer, ports));
    check(&rt, "heard", session.heard, 1000);
}

#[test]
fn a_session_that_was_not_made_does_not_play(rt: HostRuntime) {
    let mut parts = parts(&rt, rt.alloc());
    found_one(&rt, &mut parts, false, 10);
    let other = SessionId { count: 1, word: 11 };
    parts.play(other);
    check(&rt, "none", parts.rtsp_session(other).is_none(), true);
}

// Joins the first stream, and asserts which session that gives.
fn check_join(
    rt: &impl Abort,
    parts: &mut Parts,
    name: &str,
    word: u32,
    wanted: Option<SessionId>,
) {
    let joined = parts.join(Peer { ip: 7 }, draw(word), PORTS, 1);
    check(rt, name, joined, wanted);
}

// Returns whether the first stream plays.
fn is_playing(parts: &Parts) -> bool {
    match parts.view(1) {
        Some(view) => view.playing,
        None => false,
    }
}

// Creates an HTTP session, and asserts that it has the first stream, and plays.
fn check_first(rt: &impl Abort, parts: &mut Parts) {
    let (id, number) = found_one(rt, parts, true, 10);
    check(rt, "owner", (number, parts.owner(1)), (1, Some(id)));
    let states = [parts.rtsp_session(id).is_none(), is_playing(parts)];
    check(rt, "over HTTP, and plays", states, [true, true]);
}

// Creates this many sessions.
fn found_many(rt: &impl Abort, parts: &mut Parts, sessions: u32) {
    for _ in 0..sessions {
        found_one(rt, parts, false, 12);
    }
}

// Asserts that there is room for no session.
fn check_full(rt: &impl Abort, parts: &mut Parts) {
    check(rt, "full", parts.is_full(), true);
    check(rt, "no more", found(parts, false, 13).is_none(), true);
    check_join(rt, parts, "no more joins", 13, None);
}

#[test]
fn sessions_are_made_until_64_live(rt: HostRuntime) {
    let mut parts = parts(&rt, rt.alloc());
    check_join(&rt, &mut parts, "no stream", 9, None);
    check_first(&rt, &mut parts);
    let second = SessionId { count: 2, word: 11 };
    check_join(&rt, &mut parts, "second", 11, Some(second));
    found_many(&rt, &mut parts, 62);
    check_full(&rt, &mut parts);
}
