//! The cell and its passes.
ghost use Rattle.std.specs.Prelude.{◌≡◌, [], length, IfOk};
ghost use Rattle.satip_turn.specs.Shown.{IsOf, first_pass};

use crate::rule::Turns;
use crate::seat::TurnSeat;
use crate::view::{Content, Sight, Slot};
use atomic_table::Table;
use satip_base::{Served, Want};
use std::alloc::Global;
use std::marker::Model;
use std::snapshot::Snapshot;

/// A served value that many threads call through a `&`, one at a time. All their calls are in one
/// history, which is legal in the setting of the value with which the cell was created.
#[derive(Drop)]
pub struct TurnCell<S: Served> {
    pub(crate) table: Table<Slot<S>, Sight<S>, Snapshot<S>, Turns, Global>,
}

impl<S: Served> Model for TurnCell<S> {
    ghost use Rattle.satip_turn.specs.Shown.{Cell};

    ghost Value = { Cell S.Setting };

    ghost use Rattle.satip_turn.specs.Seats.{IsTurnTable};

    ghost view = { λ t. record {
      identity = t.table.shared.table_id;
      setting = S.setting t.table.shared.key.value;
    } };

    ghost invariant = { λ t. IsTurnTable t.table.shared.table_id };
}

/// The right to call a cell as one caller, and what that caller knows of the cell's history. Of
/// that knowledge only the count of entries seen takes memory.
#[derive(Drop)]
pub struct Pass<S: Served> {
    pub(crate) seat: TurnSeat<S>,
    pub(crate) place: u64,
}

impl<S: Served> Model for Pass<S> {
    ghost use Rattle.satip_turn.specs.Shown.{Shown, shown};

    ghost Value = { Shown S.Event S.Answer S.Out S.Setting };

    ghost use Rattle.std.specs.Prelude.{◌≡◌, length};
    ghost use Rattle.satip_turn.specs.Seats.{IsResting};

    ghost view = { λ p. shown p.seat.table_id p.seat.me.0 };

    ghost invariant = { λ p. IsResting S.legal p.seat.me
        × (p.place ≡ length p.seat.me.0.seen) };
}

/// The result of a try.
#[derive(Drop)]
pub enum Tried<A> {
    /// The call was made.
    Done(A),
    /// Another caller holds the turn.
    Busy,
    /// The history is full: it has 18446744073709551615 entries.
    Spent,
}

/// The result of a burst.
#[derive(Clone, Copy, Debug, PartialEq, Eq)]
pub struct Burst {
    /// The count of entries added, at most 64.
    pub made: u32,
    /// The feed gave an event, but the history was full.
    pub spent: bool,
}

impl<S: Served> TurnCell<S> {
    /// Creates a cell with an empty history, and its first pass, of caller 0. Returns `Want` if out
    /// of memory.
    pub fn make(alloc: Global, served: S) -> Result<(TurnCell<S>, Pass<S>), Want>
        requires { S.stands_for served [] }
        ensures setting { IfOk result (λ made. made.0.setting ≡ S.setting served) }
        ensures pass { IfOk result (λ made. made.1 ≡ first_pass made.0) }
        ensures of { IfOk result (λ made. IsOf made.1 made.0) }
    {
        let key = Snapshot::of(&served);
        let Ok(served) = Box::new(alloc, served) else {
            return Err(Want);
        };
        let mut slots = Vec::new(alloc);
        if slots.push(Content::Home(served)).is_err() {
            return Err(Want);
        }
        match Table::new(alloc, &[0, 0], slots, &key) {
            Ok((table, seat)) => Ok((TurnCell { table }, Pass { seat, place: 0 })),
            Err(_) => Err(Want),
        }
    }
}

impl<S: Served> Pass<S> {
    /// Returns the count of entries that the pass has seen.
    pub fn place(&self) -> u64
        ensures { result ≡ length self.now.seen }
    {
        self.place
    }
}
