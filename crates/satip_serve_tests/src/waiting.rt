//! Doors by which one connection comes, whose pieces wait until other jobs have done their part.
//! Their memory is taken before any job begins.

ghost use Rattle.std.specs.Prelude.{◌≡◌, IfOk};

use crate::deeds::{Deeds, Gate, Place, TRIES};
use satip_base::{Peer, Put, Want};
use satip_fixtures::CLIENT;
use satip_world::{Conn, ConnEnd, Door, DoorKind, Doors, Received};
use std::alloc::Global;
use std::marker::Model;

// More bytes than any connection of these runs is sent.
const MOST_SENT: usize = 4096;

/// What a connection gives at once, and what must have been done before.
#[derive(Clone, Copy)]
pub struct Piece {
    pub text: &'static [u8],
    pub gate: Gate,
}

/// A connection that is idle until the gate of its next piece is open. It doesn't tell its content.
#[derive(Drop)]
pub struct WaitingConn<'a> {
    deeds: &'a Deeds,
    place: Place,
    pieces: &'static [Piece],
    next: usize,
    sent: Vec<u8>,
    over: bool,
    idles: u64,
    faults: u64,
}

impl<'a> Conn for WaitingConn<'a> {
    ghost use Rattle.std.specs.Prelude.{[]};

    ghost tells = { ⊥ };

    ghost line = { λ c. record {
      received = [];
      sent = [];
      ended = c.over;
      idles = c.idles;
      receive_faults = 0;
      send_faults = c.faults;
    } };

    fn receive(&mut self, buf: &mut [u8]) -> Received {
        let Some(piece) = self.pieces.get(self.next).copied() else {
            self.over = true;
            return Received::End;
        };
        if self.over || self.idles >= TRIES || piece.text.is_empty() {
            self.over = true;
            self.deeds.give_up();
            return Received::End;
        }
        if !self.deeds.open(piece.gate) {
            self.idles += 1;
            self.deeds.idle(self.place);
            return Received::Idle;
        }
        let count = piece.text.len().min(buf.len());
        buf[..count].copy_from_slice(&piece.text[..count]);
        self.next = self.next.saturating_add(1);
        Received::Got(count)
    }

    fn send(&mut self, bytes: &[u8]) -> Put {
        if self.sent.extend_from_slice(bytes).is_err() {
            self.faults = self.faults.saturating_add(1);
            return Put::Failed;
        }
        if bytes.starts_with(b"$") {
            self.deeds.frame(self.place);
        } else {
            self.deeds.reply(self.place);
        }
        Put::Whole
    }
}

/// What a connection was sent, and how its service ended.
#[derive(Drop)]
pub struct Served {
    pub sent: Vec<u8>,
    pub end: ConnEnd,
}

/// Doors by which one connection of this kind comes, behind a look that finds none.
#[derive(Drop)]
pub struct WaitingDoors<'a> {
    deeds: &'a Deeds,
    place: Place,
    kind: DoorKind,
    pieces: &'static [Piece],
    limit: u32,
    count: u64,
    ended: bool,
    idles: u64,
    room: Option<Vec<u8>>,
    served: Option<Served>,
}

impl<'a> Model for WaitingDoors<'a> {
    ghost use Rattle.std.specs.Prelude.{[], false};
    ghost use Rattle.satip_world.specs.Halls.{Hall};

    ghost Value = { Hall };

    ghost view = { λ d. record {
      limit = d.limit;
      count = d.count;
      ended = d.ended;
      idles = d.idles;
      faults = 0;
      told = false;
      given = [];
      returned = [];
    } };
}

impl<'a> WaitingDoors<'a> {
    ghost use Rattle.std.specs.Prelude.{false};
    ghost use Rattle.satip_world.specs.Halls.{fresh_hall};

    /// Doors that end after `limit` connections, by which the one at this place comes.
    pub fn make(
        alloc: Global,
        deeds: &'a Deeds,
        place: Place,
        kind: DoorKind,
        pieces: &'static [Piece],
        limit: u32,
    ) -> Result<WaitingDoors<'a>, Want>
        ensures fresh { IfOk result (λ doors. doors ≡ fresh_hall limit false) }
    {
        let Ok(room) = Vec::with_capacity(alloc, MOST_SENT) else {
            return Err(Want);
        };
        Ok(WaitingDoors {
            deeds,
            place,
            kind,
            pieces,
            limit,
            count: 0,
            ended: false,
            idles: 0,
            room: Some(room),
            served: None,
        })
    }

    /// The connection, if it was handed back.
    pub fn served(&self) -> Option<&Served> {
        self.served.as_ref()
    }

    /// Whether the connection was sent just these bytes, and its service ended well.
    pub fn have_sent(&self, sent: &[u8]) -> bool {
        match &self.served {
            Some(served) => served.end == ConnEnd::Done && served.sent.as_slice() == sent,
            None => false,
        }
    }
}

impl<'a> Doors for WaitingDoors<'a> {
    type Conn = WaitingConn<'a>;

    ghost hall = { λ d. d };

    ghost by_limit = { ⊥ };

    fn next(&mut self) -> Door<WaitingConn<'a>> {
        if self.ended || (self.limit != 0 && self.count >= self.limit as u64) {
            self.ended = true;
            return Door::End;
        }
        if self.idles == 0 {
            self.idles = 1;
            return Door::Idle;
        }
        let Some(sent) = self.room.take() else {
            self.ended = true;
            return Door::End;
        };
        self.count = self.count.saturating_add(1);
        Door::Came {
            kind: self.kind,
            peer: CLIENT,
            conn: WaitingConn {
                deeds: self.deeds,
                place: self.place,
                pieces: self.pieces,
                next: 0,
                sent,
                over: false,
                idles: 0,
                faults: 0,
            },
        }
    }

    fn back(&mut self, conn: WaitingConn<'a>, _kind: DoorKind, _peer: Peer, end: ConnEnd) {
        self.served = Some(Served {
            sent: conn.sent,
            end,
        });
    }
}
