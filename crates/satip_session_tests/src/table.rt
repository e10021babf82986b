//! Tables of a few sessions, a full one, and one that is compared with plain lists.

mod plain;
mod rows;

use plain::{Plain, stream_place};
use rows::drawn;
use satip_base::{Peer, Ports, SessionId, Want};
use satip_fixtures::draws::{FIRST_DRAW, next_draw};
use satip_pids::PidSet;
use satip_table::{Stream, Table};

/// Whether both have the same sessions and streams at each place.
fn are_same(table: &Table, plain: &Plain) -> bool {
    for place in 0..65 {
        if table.seat(place).copied() != plain.seats.get(place).copied() {
            return false;
        }
        let same = match (table.stream(place), plain.streams.get(place)) {
            (None, None) => true,
            (Some(stream), Some(other)) => is_same(stream, other),
            _ => false,
        };
        if !same {
            return false;
        }
    }
    table.count() == plain.seats.len()
}

fn is_same(stream: &Stream, other: &Stream) -> bool {
    stream.number == other.number
        && stream.owner == other.owner
        && stream.tuning == other.tuning
        && stream.front == other.front
        && stream.pids.has(17) == other.pids.has(17)
}

/// The id of a living session for most numbers, else of none.
fn some_id(plain: &Plain, draw: u32) -> SessionId {
    let other = SessionId {
        count: draw % 99,
        word: 1,
    };
    match plain.seats.get((draw % 66) as usize) {
        Some(seat) => seat.session.id,
        None => other,
    }
}

/// Changes a session in both, or ends it.
fn change_both(table: &mut Table, plain: &mut Plain, kind: u32, draw: u32) -> bool {
    let id = some_id(plain, draw);
    if kind < 4 {
        return table.leave(id) == plain.leave(id);
    }
    let now = draw as u64;
    let ports = Ports { rtp: 7, rtcp: 8 };
    let lived = match kind {
        4 => table.heard(id, now),
        5 => table.play(id),
        6 => table.reported(id, now),
        _ => table.move_to(id, Peer { ip: draw }, ports),
    };
    let Some(place) = plain.place_of(id) else {
        return !lived;
    };
    if let Some(seat) = plain.seats.get_mut(place) {
        match kind {
            4 => seat.session.heard = now,
            5 => seat.session.playing = true,
            6 => seat.session.reported = Some(now),
            _ => {
                seat.session.peer = Peer { ip: draw };
                seat.session.ports = ports;
            }
        }
    }
    lived
}

/// Makes a session in both, at a stream of its own or at this one.
fn make_both(table: &mut Table, plain: &mut Plain, kind: u32, draw: u32) -> Result<bool, Want> {
    if table.full() {
        return Ok(plain.seats.len() == 64);
    }
    let stream = (draw % 66) as u16;
    if kind < 12 {
        return Ok(table.found(drawn(draw)) == plain.found(drawn(draw))?);
    }
    if table.find_stream(stream).is_none() {
        return Ok(stream_place(&plain.streams, stream).is_none());
    }
    Ok(table.join(drawn(draw), stream) == plain.join(drawn(draw), stream)?)
}

/// Changes a stream in both.
fn retune_both(table: &mut Table, plain: &mut Plain, all: bool, draw: u16) -> bool {
    let number = draw % 66;
    let front = Some(draw);
    let mut pids = PidSet::new();
    let mut others = PidSet::new();
    if all {
        pids.set_all();
        others.set_all();
    }
    table.change(number, None, front, pids) == plain.change(number, front, others)
}

/// Makes one call of each, as a number says. Whether both answer alike.
fn call_both(table: &mut Table, plain: &mut Plain, draw: u32) -> Result<bool, Want> {
    let kind = draw >> 28;
    let drawn = (draw >> 8) % 65536;
    match kind {
        0..=7 => Ok(change_both(table, plain, kind, drawn)),
        8..=13 => make_both(table, plain, kind, drawn),
        _ => Ok(retune_both(table, plain, kind == 14, drawn as u16)),
    }
}

#[test]
fn ten_thousand_calls_are_as_on_plain_lists(rt: HostRuntime) -> Result<(), Want> {
    let mut table = Table::make(rt.alloc())?;
    let mut plain = Plain {
        seats: Vec::new(rt.alloc()),
        streams: Vec::new(rt.alloc()),
        made: 0,
    };
    let mut draw = FIRST_DRAW;
    for _ in 0..10000 {
        draw = next_draw(draw);
        let same = call_both(&mut table, &mut plain, draw)?;
        assert!(rt; same && are_same(&table, &plain));
    }
    Ok(())
}
