//! The rule of the cell's table, and what a seat learns from each of its steps.
ghost use Rattle.std.specs.Prelude.{◌≡◌};
ghost use Rattle.satip_turn.specs.Views.{opening_view, spent_view};
ghost use Rattle.satip_turn.specs.Rule.{Kept, in_box, stands_in_box};
ghost use Rattle.satip_turn.specs.Steps.{Tries, Looks, Gives, Draws, Hears, spoken, parting, newcomer, joining};

use crate::view::{Sight, Slot, View};
use atomic_table::{Join, Play, Split, TableRule};
use satip_base::Served;
use std::snapshot::Snapshot;

/// The rule: word 0 is the turn, word 1 the length of the history, and the slot holds the served
/// value in a box.
pub struct Turns;

impl<S: Served> TableRule<Slot<S>, Sight<S>, Snapshot<S>> for Turns {
    ghost holds = { λ k s. Kept (in_box S.setting) S.legal (stands_in_box S.stands_for)
        (S.setting k.value) s };

    ghost first = { λ k. opening_view (S.setting k.value) };
}

// Sets the turn word from 0 to 1, and takes the value out of the slot.
pub(crate) struct Take;

impl<S: Served> Play<Slot<S>, Sight<S>> for Take {
    ghost then = { λ _ me found after. Tries (in_box S.setting) (stands_in_box S.stands_for)
        me found after };
}

// Reads the length under the turn.
pub(crate) struct Look;

impl<S: Served> Play<Slot<S>, Sight<S>> for Look {
    ghost then = { λ _ me found after. Looks me found after };
}

// Adds one to the length: the content of the slot is an entry.
pub(crate) struct Commit;

impl<S: Served> Play<Slot<S>, Sight<S>> for Commit {
    ghost then = { λ _ me _ after. after ≡ (spoken me.0 me.1, me.1) };
}

// Sets the turn word to 0, with the value back in the slot.
pub(crate) struct Give;

impl<S: Served> Play<Slot<S>, Sight<S>> for Give {
    ghost then = { λ _ me _ after. Gives S.legal me after };
}

// Draws a new number.
pub(crate) struct Draw;

impl<S: Served> Play<Slot<S>, Sight<S>> for Draw {
    ghost then = { λ _ me _ after. Draws S.legal me after };
}

// Learns that what two joined seats had seen is of one history.
pub(crate) struct Hear;

impl<S: Served> Play<Slot<S>, Sight<S>> for Hear {
    ghost then = { λ _ me _ after. Hears S.legal me after };
}

// Splits off a seat with the drawn number.
pub(crate) struct SplitOff;

impl<E, A, O, C> Split<View<E, A, O, C>> for SplitOff {
    ghost left = { parting };

    ghost right = { newcomer };
}

// Joins a seat into another.
pub(crate) struct JoinIn;

impl<E, A, O, C> Join<View<E, A, O, C>> for JoinIn {
    ghost both = { joining };

    ghost spent = { spent_view };
}
