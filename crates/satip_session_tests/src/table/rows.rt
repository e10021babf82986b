//! Tables of a few sessions, and a full one, worked out by hand.

use crate::checks::check;
use satip_base::{Draw, Peer, Ports, SessionId};
use satip_fixtures::{CLIENT, DRAW, PORTS};
use satip_pids::PidSet;
use satip_table::{NewSession, Session, Table};
use std::process::Abort;

/// A session that is created from this drawn word.
pub(super) fn drawn(word: u32) -> NewSession {
    NewSession {
        http: false,
        peer: CLIENT,
        ports: PORTS,
        draw: Draw { word, ..DRAW },
        heard: 1000,
    }
}

/// A call of a table and its result, or what the table shows.
#[derive(Clone, Copy)]
enum Step {
    /// A session is created from a word; its count, and the number of its stream.
    Create(u32, u32, u16),
    /// A session that is created from a word joins stream 1; its count.
    Join(u32, u32),
    /// A session leaves; whether it lived.
    Leave(SessionId, bool),
    /// The session's last activity, whether it plays, its last report, or its destination changes.
    Change(Change, SessionId, bool),
    /// A stream of this number gets a front end and all PIDs; whether it lived.
    Retune(u16, Option<u16>, bool),
    /// The session of an id.
    Session(SessionId, Option<Session>),
    /// The front end and the owner of a stream.
    Stream(u16, Option<(Option<u16>, SessionId)>),
    /// The session at a place of those that joined stream 1.
    Joined(usize, Option<SessionId>),
    /// The session and the number of the stream at a place.
    Place(usize, Option<SessionId>, Option<u16>),
    /// The session in a slot.
    Slot(u16, Option<SessionId>),
    /// Whether the table is full, and its number of sessions.
    Count(bool, usize),
}

/// A change of a session.
#[derive(Clone, Copy)]
enum Change {
    Heard(u64),
    Play,
    Reported(u64),
    MoveTo(Peer, Ports),
}

const FIRST: SessionId = SessionId { count: 1, word: 10 };

const SECOND: SessionId = SessionId { count: 2, word: 11 };

const THIRD: SessionId = SessionId { count: 3, word: 12 };

const FOURTH: SessionId = SessionId { count: 4, word: 13 };

/// No session has this id.
const OTHER: SessionId = SessionId { count: 1, word: 11 };

/// The first session as it is created.
const CREATED: Session = Session {
    id: FIRST,
    http: false,
    peer: CLIENT,
    ports: PORTS,
    stream: 1,
    playing: false,
    heard: 1000,
    reported: None,
    ssrc: DRAW.ssrc,
    first: DRAW.first,
};

const ELSEWHERE: Peer = Peer { ip: 7 };

const OTHER_PORTS: Ports = Ports { rtp: 5, rtcp: 6 };

const ROWS: &[(&str, &[Step])] = &[
    (
        "joined sessions stand in order",
        &[
            Step::Create(10, 1, 1),
            Step::Join(11, 2),
            Step::Join(12, 3),
            Step::Joined(0, Some(SECOND)),
            Step::Joined(1, Some(THIRD)),
            Step::Joined(2, None),
        ],
    ),
    (
        "the earliest joined session becomes the owner",
        &[
            Step::Create(10, 1, 1),
            Step::Join(11, 2),
            Step::Join(12, 3),
            Step::Leave(FIRST, true),
            Step::Stream(1, Some((None, SECOND))),
            Step::Joined(0, Some(THIRD)),
        ],
    ),
    (
        "the last session ends its stream",
        &[
            Step::Create(10, 1, 1),
            Step::Join(11, 2),
            Step::Join(12, 3),
            Step::Leave(FIRST, true),
            Step::Leave(THIRD, true),
            Step::Leave(THIRD, false),
            Step::Leave(SECOND, true),
            Step::Stream(1, None),
            Step::Place(0, None, None),
        ],
    ),
    (
        "the least free number is used again",
        &[
            Step::Create(10, 1, 1),
            Step::Create(11, 2, 2),
            Step::Create(12, 3, 3),
            Step::Leave(SECOND, true),
            Step::Create(13, 4, 2),
        ],
    ),
    (
        "sessions stand in order and streams by number",
        &[
            Step::Create(10, 1, 1),
            Step::Create(11, 2, 2),
            Step::Create(12, 3, 3),
            Step::Leave(SECOND, true),
            Step::Create(13, 4, 2),
            Step::Place(0, Some(FIRST), Some(1)),
            Step::Place(1, Some(THIRD), Some(2)),
            Step::Place(2, Some(FOURTH), Some(3)),
            Step::Place(3, None, None),
        ],
    ),
    (
        "a new session does not play",
        &[Step::Create(10, 1, 1), Step::Session(FIRST, Some(CREATED))],
    ),
    (
        "fields change and the others stay",
        &[
            Step::Create(10, 1, 1),
            Step::Change(Change::Heard(2000), FIRST, true),
            Step::Change(Change::Play, FIRST, true),
            Step::Change(Change::Reported(1500), FIRST, true),
            Step::Change(Change::MoveTo(ELSEWHERE, OTHER_PORTS), FIRST, true),
            Step::Session(
                FIRST,
                Some(Session {
                    peer: ELSEWHERE,
                    ports: OTHER_PORTS,
                    playing: true,
                    heard: 2000,
                    reported: Some(1500),
                    ..CREATED
                }),
            ),
        ],
    ),
    (
        "a stream changes and keeps its owner",
        &[
            Step::Create(10, 1, 1),
            Step::Retune(1, Some(2), true),
            Step::Retune(2, None, false),
            Step::Stream(1, Some((Some(2), FIRST))),
        ],
    ),
    (
        "an unknown session is not found",
        &[
            Step::Create(10, 1, 1),
            Step::Change(Change::Heard(0), OTHER, false),
            Step::Change(Change::Play, OTHER, false),
            Step::Session(OTHER, None),
            Step::Slot(64, None),
        ],
    ),
];

/// Creates a session. Returns its id, and the number of its stream.
fn create(rt: &impl Abort, table: &mut Table, word: u32) -> (SessionId, u16) {
    assert!(rt; !table.full());
    table.found(drawn(word))
}

/// Creates a session that joins stream 1. Returns its id.
fn join(rt: &impl Abort, table: &mut Table, word: u32) -> SessionId {
    assert!(rt; !table.full());
    assert!(rt; table.find_stream(1).is_some());
    table.join(drawn(word), 1)
}

/// Changes a session. Tells whether it lives.
fn make_change(table: &mut Table, change: Change, id: SessionId) -> bool {
    match change {
        Change::Heard(now) => table.heard(id, now),
        Change::Play => table.play(id),
        Change::Reported(now) => table.reported(id, now),
        Change::MoveTo(peer, ports) => table.move_to(id, peer, ports),
    }
}

/// Gives a stream a front end and all PIDs. Tells whether it lives.
fn retune(table: &mut Table, number: u16, front: Option<u16>) -> bool {
    let mut pids = PidSet::new();
    pids.set_all();
    table.change(number, None, front, pids)
}

/// Returns the session in a slot by its seat.
fn session_at(table: &Table, slot: u16) -> Option<Session> {
    match table.seat_at(slot) {
        Some(seat) => Some(seat.session),
        None => None,
    }
}

/// Whether an id has this session, also in its slot.
fn has_session(table: &Table, id: SessionId, wanted: Option<Session>) -> bool {
    let Some(slot) = table.slot(id) else {
        return wanted.is_none() && table.find(id).is_none();
    };
    table.find(id).copied() == wanted
        && table.at(slot).copied() == wanted
        && session_at(table, slot) == wanted
}

/// Returns the front end and the owner of a stream.
fn stream_of(table: &Table, number: u16) -> Option<(Option<u16>, SessionId)> {
    let stream = table.find_stream(number)?;
    Some((stream.front, stream.owner))
}

/// Returns the id of a session.
fn id_of(session: Option<&Session>) -> Option<SessionId> {
    match session {
        Some(session) => Some(session.id),
        None => None,
    }
}

/// Returns the session and the number of the stream at a place.
fn at_place(table: &Table, place: usize) -> (Option<SessionId>, Option<u16>) {
    let number = match table.stream(place) {
        Some(stream) => Some(stream.number),
        None => None,
    };
    (id_of(table.session(place)), number)
}

/// Asserts what a table shows.
fn check_shown(rt: &impl Abort, table: &Table, step: Step, name: &str) {
    match step {
        Step::Session(id, wanted) => {
            check(rt, name, &(id, has_session(table, id, wanted)), &(id, true));
        }
        Step::Stream(number, wanted) => {
            check(rt, name, &stream_of(table, number), &wanted);
        }
        Step::Joined(place, id) => check(rt, name, &table.joined(1, place), &id),
        Step::Place(place, id, number) => {
            check(rt, name, &at_place(table, place), &(id, number));
        }
        Step::Slot(slot, wanted) => {
            check(rt, name, &id_of(table.at(slot)), &wanted);
        }
        Step::Count(full, count) => {
            check(rt, name, &(table.full(), table.count()), &(full, count));
        }
        _ => (),
    }
}

/// Takes a step, and asserts its result.
fn take(rt: &impl Abort, table: &mut Table, step: Step, name: &str) {
    match step {
        Step::Create(word, count, number) => {
            let id = SessionId { count, word };
            check(rt, name, &create(rt, table, word), &(id, number));
        }
        Step::Join(word, count) => {
            let id = SessionId { count, word };
            check(rt, name, &join(rt, table, word), &id);
        }
        Step::Leave(id, lived) => check(rt, name, &table.leave(id), &lived),
        Step::Change(to, id, lives) => check(rt, name, &make_change(table, to, id), &lives),
        Step::Retune(number, front, lives) => {
            check(rt, name, &retune(table, number, front), &lives);
        }
        _ => check_shown(rt, table, step, name),
    }
}

#[test]
fn tables_answer_as_their_rows_say(rt: HostRuntime) {
    for (name, steps) in ROWS {
        let mut table = Table::make(rt.alloc()).expect(&rt, "out of memory");
        for step in *steps {
            take(&rt, &mut table, *step, name);
        }
    }
}

/// Steps on a full table.
const FULL: &[Step] = &[
    Step::Count(true, 64),
    Step::Leave(SessionId { count: 7, word: 10 }, true),
    Step::Count(false, 63),
    Step::Create(11, 65, 7),
];

/// Returns the slot of the session at a place.
fn slot_at(rt: &impl Abort, table: &Table, place: usize) -> usize {
    match table.seat(place) {
        Some(seat) => seat.slot as usize,
        None => panic!(rt; "no session"),
    }
}

/// Asserts that each of 64 sessions has a slot of its own.
fn check_slots(rt: &impl Abort, table: &Table) {
    let mut taken = [false; 64];
    for place in 0..64 {
        let slot = slot_at(rt, table, place);
        assert!(rt; slot < 64 && !taken[slot]);
        taken[slot] = true;
    }
}

#[test]
fn a_full_table_has_64_slots(rt: HostRuntime) {
    let mut table = Table::make(rt.alloc()).expect(&rt, "out of memory");
    for _ in 0..64 {
        let _ = create(&rt, &mut table, 10);
    }
    check_slots(&rt, &table);
    for step in FULL {
        take(&rt, &mut table, *step, "a full table");
    }
}
