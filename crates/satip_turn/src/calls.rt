//! The calls of a cell that add entries or look at the history.
ghost use Rattle.std.specs.Prelude.{◌≡◌, ◌+◌, ◌<◌, ◌≤◌, ◌⊎◌, ◌↔◌, true, false, [], ◌∷◌, length, None, IsTrue, IsSome, IsErr, OnErr, MatchResult};
ghost use Rattle.satip_base.specs.History.{entry};
ghost use Rattle.satip_turn.specs.Shown.{IsOf, Keeps, Knows, Turned, Looked, Bursts, met_once};
ghost use Rattle.satip_turn.specs.Tried.{MatchTried, OnDone, OnSpent, OnUndone, busy_count};

use crate::burst::feed_many;
use crate::cell::{Burst, Pass, Tried, TurnCell};
use crate::feed::Feed;
use crate::seat::{give, look, take};
use crate::turns::{serve_turn, wait_turn};
use satip_base::limits::{BURST, LONGEST_HISTORY};
use satip_base::{Served, Spent};
use std::sync::Wait;

impl<S: Served> TurnCell<S> {
    /// Makes one call, unless another caller holds the turn or the history is full. The single
    /// addition to the cell's count word fixes the place of the call's entry in the history.
    pub fn try_call(
        &self,
        pass: &mut Pass<S>,
        event: &S::Event,
        out: &mut S::Out,
    ) -> Tried<S::Answer>
        requires { IsOf pass.old self.now }
        ensures of { IsOf pass.new self.now }
        ensures rests { pass.new.turn ≡ false }
        ensures keeps { Keeps pass.old pass.new }
        ensures knows { Knows (S.legal self.now.setting) pass.new }
        ensures history { MatchTried result
            (λ answer. Turned pass.old pass.new
            (entry pass.old.number event.now answer out.new ∷ []))
            (pass.new ≡ met_once pass.old)
            (Looked pass.old pass.new) }

        // Busy exactly if the one try found the turn taken, and Spent if the history is full
        ensures met { pass.new.met ≡ pass.old.met + busy_count result }
        ensures room { OnDone result (length pass.new.looked < LONGEST_HISTORY) }
        ensures full { OnSpent result (length pass.new.seen ≡ LONGEST_HISTORY) }
        ensures out { OnUndone result (out.new ≡ out.old) }
    {
        match take(&self.table.shared, &mut pass.seat) {
            None => Tried::Busy,
            Some(served) => match serve_turn(
                &self.table.shared,
                &mut pass.seat,
                &mut pass.place,
                served,
                event,
                out,
            ) {
                Ok(answer) => Tried::Done(answer),
                Err(Spent) => Tried::Spent,
            },
        }
    }

    /// Makes one call after no other caller holds the turn. Waits for the turn.
    pub fn call<R: Wait>(
        &self,
        rt: &R,
        pass: &mut Pass<S>,
        event: &S::Event,
        out: &mut S::Out,
    ) -> Result<S::Answer, Spent>
        requires { IsOf pass.old self.now }
        ensures of { IsOf pass.new self.now }
        ensures rests { pass.new.turn ≡ false }
        ensures keeps { Keeps pass.old pass.new }
        ensures knows { Knows (S.legal self.now.setting) pass.new }
        ensures history { MatchResult result
            (λ answer. Turned pass.old pass.new
            (entry pass.old.number event.now answer out.new ∷ []))
            (λ _. Looked pass.old pass.new) }
        ensures spent { IsErr result ↔ (length pass.new.looked ≡ LONGEST_HISTORY) }
        ensures full { OnErr result (length pass.new.seen ≡ LONGEST_HISTORY) }
        ensures out { OnErr result (out.new ≡ out.old) }
        ensures met { pass.old.met ≤ pass.new.met }
    {
        let served = wait_turn(rt, &self.table.shared, &mut pass.seat);
        serve_turn(
            &self.table.shared,
            &mut pass.seat,
            &mut pass.place,
            served,
            event,
            out,
        )
    }

    /// Looks at the whole history after no other caller holds the turn. Waits for the turn.
    pub fn refresh<R: Wait>(&self, rt: &R, pass: &mut Pass<S>)
        requires { IsOf pass.old self.now }
        ensures of { IsOf pass.new self.now }
        ensures rests { pass.new.turn ≡ false }
        ensures keeps { Keeps pass.old pass.new }
        ensures knows { Knows (S.legal self.now.setting) pass.new }
        ensures history { Looked pass.old pass.new }
        ensures looks { pass.old.looks < pass.new.looks }
        ensures met { pass.old.met ≤ pass.new.met }
    {
        let value = wait_turn(rt, &self.table.shared, &mut pass.seat);
        pass.place = look(&self.table.shared, &mut pass.seat);
        give(&self.table.shared, &mut pass.seat, value);
    }

    /// Executes the feed's events one after another under one turn; each adds one entry. Ends when
    /// the feed has none left, after 64 entries, or when the history is full. Waits for the turn.
    /// No entry of another caller lies between those of a burst. `event` is room for one event.
    pub fn burst<R: Wait, F: Feed<S>>(
        &self,
        rt: &R,
        pass: &mut Pass<S>,
        feed: &mut F,
        event: &mut S::Event,
        out: &mut S::Out,
    ) -> Burst
        requires of { IsOf pass.old self.now }
        requires open { F.ended feed.old ≡ false }
        requires none { F.given feed.old ≡ None }
        ensures of { IsOf pass.new self.now }
        ensures rests { pass.new.turn ≡ false }
        ensures keeps { Keeps pass.old pass.new }
        ensures knows { Knows (S.legal self.now.setting) pass.new }
        ensures history { Bursts (F.has_taken feed.old feed.new) pass.old pass.new result.made }
        ensures most { result.made ≤ BURST }
        ensures few { result.made < BURST → (F.ended feed.new ≡ true) ⊎ (result.spent ≡ true) }

        // an event that the feed gave has no entry
        ensures spent { IsTrue result.spent ↔ IsSome (F.given feed.new) }
        ensures full { result.spent ≡ true → length pass.new.seen ≡ LONGEST_HISTORY }

        // `out` is the output of the last event that has one
        ensures took_last { F.took_last feed.old out.old → F.took_last feed.new out.new }
        ensures met { pass.old.met ≤ pass.new.met }
    {
        let mut served = wait_turn(rt, &self.table.shared, &mut pass.seat);
        pass.place = look(&self.table.shared, &mut pass.seat);
        let burst = feed_many(
            &self.table.shared,
            &mut pass.seat,
            &mut pass.place,
            &mut *served,
            feed,
            event,
            out,
        );
        give(&self.table.shared, &mut pass.seat, served);
        burst
    }
}
