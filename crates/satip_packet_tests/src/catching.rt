//! Datagrams that come out of order.
ghost use Rattle.std.specs.Prelude.{◌≡◌, true, false};
ghost use Rattle.satip_rtp_receiver.specs.Catching.{Rests};

use crate::checks::check;
use satip_rtp_receiver::{Catcher, Item, read_rtp};
use std::alloc::Global;
use std::process::Abort;

const SOURCE: u32 = 0x11223344;

// A datagram of one packet, whose second byte is the low byte of the datagram's number.
fn datagram(number: u16, ssrc: u32) -> [u8; 200] {
    let mut bytes = [0; 200];
    bytes[..12].copy_from_slice(b"\x80\x21\x00\x00\x00\x01\x5f\x90\x00\x00\x00\x00");
    bytes[2..4].copy_from_slice(&number.to_be_bytes());
    bytes[8..12].copy_from_slice(&ssrc.to_be_bytes());
    bytes[12] = 0x47;
    bytes[13] = (number % 256) as u8;
    bytes
}

fn take_of(catcher: &mut Catcher, number: u16, ssrc: u32) -> bool
    requires rests { Rests catcher.old }
    ensures unfinished { catcher.new.finished ≡ false }
{
    match read_rtp(&datagram(number, ssrc)) {
        None => false,
        Some(view) => catcher.take(&view),
    }
}

// The next item is the datagram of this number, with its own packet.
fn hands_up(catcher: &mut Catcher, number: u16) -> bool
    ensures finished { catcher.new.finished ≡ catcher.old.finished }
{
    match catcher.next() {
        Some(
            Item::Data {
                number: found,
                packets,
            },
        ) => found == number && packets.bytes().get(1).copied() == Some((number % 256) as u8),
        Some(Item::Gap { .. }) | None => false,
    }
}

// The next item is a gap of so many numbers.
fn tells_gap(catcher: &mut Catcher, from: u16, count: u32) -> bool
    ensures finished { catcher.new.finished ≡ catcher.old.finished }
{
    match catcher.next() {
        Some(
            Item::Gap {
                from: first,
                count: found,
            },
        ) => first == from && found == count,
        Some(Item::Data { .. }) | None => false,
    }
}

// There is no next item.
fn waits(catcher: &mut Catcher) -> bool
    ensures finished { catcher.new.finished ≡ catcher.old.finished }
    ensures rests { result ≡ true → catcher.old.finished ≡ false → Rests catcher.new }
{
    catcher.next().is_none()
}

// What the next item is to be: the datagram of a number, or a gap from a number on.
#[derive(Clone, Copy)]
enum Wanted {
    Data(u16),
    Gap(u16, u32),
}

use Wanted::{Data, Gap};

// A datagram of a number and a source that comes, whether it is taken, and all items that follow.
type Round = (u16, u32, bool, &'static [Wanted]);

// Datagrams that come, and the items that follow once they end.
#[derive(Clone, Copy)]
struct Row {
    name: &'static str,
    rounds: &'static [Round],
    rest: &'static [Wanted],
}

const ROWS: &[Row] = &[
    Row {
        name: "late datagrams are put in order and a repeat is dropped",
        rounds: &[
            (65534, SOURCE, true, &[Data(65534)]),
            (0, SOURCE, true, &[]),
            (65535, SOURCE, true, &[Data(65535), Data(0)]),
            (0, SOURCE, false, &[]),
            (3, SOURCE, true, &[]),
        ],
        rest: &[Gap(1, 2), Data(3)],
    },
    Row {
        name: "a number is passed once one came that is 64 ahead",
        rounds: &[
            (10, SOURCE, true, &[Data(10)]),
            (75, SOURCE, true, &[Gap(11, 1)]),
            (11, SOURCE, false, &[]),
            (12, SOURCE, true, &[Data(12)]),
        ],
        rest: &[Gap(13, 62), Data(75)],
    },
    Row {
        name: "a held datagram is not taken twice",
        rounds: &[
            (100, SOURCE, true, &[Data(100)]),
            (103, SOURCE, true, &[]),
            (102, SOURCE, true, &[]),
            (102, SOURCE, false, &[]),
            (103, SOURCE, false, &[]),
        ],
        rest: &[Gap(101, 1), Data(102), Data(103)],
    },
    Row {
        name: "another source is left out",
        rounds: &[
            (7, SOURCE, true, &[Data(7)]),
            (8, SOURCE + 1, false, &[]),
            (8, SOURCE, true, &[Data(8)]),
        ],
        rest: &[],
    },
    Row {
        name: "half of all numbers are ahead",
        rounds: &[
            (0, SOURCE, true, &[Data(0)]),
            (32768, SOURCE, false, &[]),
            (32767, SOURCE, true, &[Gap(1, 32703)]),
        ],
        rest: &[Gap(32704, 63), Data(32767)],
    },
];

// Whether the next item is this one.
fn gives(catcher: &mut Catcher, wanted: Wanted) -> bool
    ensures finished { catcher.new.finished ≡ catcher.old.finished }
{
    match wanted {
        Wanted::Data(number) => hands_up(catcher, number),
        Wanted::Gap(from, count) => tells_gap(catcher, from, count),
    }
}

// Whether the next items are these, and none follows.
fn gives_all(catcher: &mut Catcher, items: &[Wanted]) -> bool
    ensures rests { result ≡ true → catcher.old.finished ≡ false → Rests catcher.new }
    ensures finished { catcher.new.finished ≡ catcher.old.finished }
{
    for wanted in items {
        if !gives(catcher, *wanted) {
            return false;
        }
    }
    waits(catcher)
}

// Whether a datagram is taken or left out as it is to be, and its items follow.
fn follows(catcher: &mut Catcher, round: Round) -> bool
    requires rests { Rests catcher.old }
    ensures rests { result ≡ true → Rests catcher.new }
{
    let (number, source, taken, items) = round;
    if take_of(catcher, number, source) != taken {
        return false;
    }
    gives_all(catcher, items)
}

// Whether each datagram is followed by its items, and the end by the rest.
fn catches(catcher: &mut Catcher, row: &Row) -> bool
    requires rests { Rests catcher.old }
{
    for round in row.rounds {
        if !follows(catcher, *round) {
            return false;
        }
    }
    catcher.finish();
    gives_all(catcher, row.rest)
}

fn check_rows(rt: &impl Abort, alloc: Global, rows: &[Row]) {
    for row in rows {
        let mut catcher = Catcher::make(alloc).expect(rt, "out of memory");
        check(rt, row.name, catches(&mut catcher, row), true);
    }
}

#[test]
fn datagrams_are_caught_as_their_rows_say(rt: HostRuntime) {
    check_rows(&rt, rt.alloc(), ROWS);
}
