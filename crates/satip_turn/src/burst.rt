//! Many calls under one turn.
ghost use Rattle.std.specs.Prelude.{◌≡◌, ◌≢◌, ◌⊎◌, ℕ, ◌+◌, ◌^◌, ◌<◌, ◌≤◌, Bool, true, false, [], ◌∷◌, length, None, IsSome, ◌↔◌, IsTrue};
ghost use Rattle.satip_base.specs.History.{entries};
ghost use Rattle.satip_turn.specs.declared.view.View.{View};
ghost use Rattle.satip_turn.specs.Seats.{IsTurnTable, IsHolding, IsServed, IsUnderWay};
ghost use Rattle.satip_turn.specs.Fed.{MatchFed};

use crate::cell::Burst;
use crate::feed::Feed;
use crate::seat::{TurnSeat, TurnTable, commit};
use satip_base::Served;
use satip_base::limits::{BURST, LONGEST_HISTORY};

// The result of one step of a burst.
pub(crate) enum Fed {
    // It added an entry.
    Made,
    // The feed had no event.
    Ended,
    // The feed gave an event, but the history is full.
    Full,
}

// Asks the feed for an event, which it writes over `event`, serves it, commits its entry and passes
// the answer to the feed.
pub(crate) fn feed_one<S: Served, F: Feed<S>>(
    table: &TurnTable<S>,
    seat: &mut TurnSeat<S>,
    place: &mut u64,
    served: &mut S,
    feed: &mut F,
    event: &mut S::Event,
    out: &mut S::Out,
) -> Fed
    requires cell { (seat.old.table_id ≡ table.now.table_id) × IsTurnTable table.now.table_id }
    requires holds { IsHolding seat.old.me }
    requires served { IsServed S.setting S.stands_for seat.old.me.0 served.old }
    requires seen { seat.old.me.0.seen ≡ seat.old.me.0.whole }
    requires place { place.old ≡ length seat.old.me.0.whole }
    requires open { F.ended feed.old ≡ false }
    requires none { F.given feed.old ≡ None }
    ensures cell { seat.new.table_id ≡ seat.old.table_id }
    ensures going { (first : F) (v : View S.Event S.Answer S.Out S.Setting) (made : ℕ)
        → IsUnderWay S.setting S.stands_for (F.has_taken first feed.old) v made
        seat.old.me served.old place.old
        → MatchFed result
        (IsUnderWay S.setting S.stands_for (F.has_taken first feed.new) v (made + 1)
        seat.new.me served.new place.new)
        (IsUnderWay S.setting S.stands_for (F.has_taken first feed.new) v made
        seat.new.me served.new place.new)
        (IsUnderWay S.setting S.stands_for (F.has_taken first feed.new) v made
        seat.new.me served.new place.new) }
    ensures ended { MatchFed result
        (F.ended feed.new ≡ false) (F.ended feed.new ≡ true) (Unit {0}) }
    ensures given { MatchFed result
        (F.given feed.new ≡ None) (F.given feed.new ≡ None) (IsSome (F.given feed.new)) }
    ensures full { MatchFed result
        (Unit {0}) (Unit {0}) (place.new ≡ LONGEST_HISTORY) }
    ensures took_last { F.took_last feed.old out.old → F.took_last feed.new out.new }
{
    if !feed.next(event) {
        return Fed::Ended;
    }
    if *place == u64::MAX {
        return Fed::Full;
    }
    let answer = served.serve(event, out);
    commit(table, seat, event, &answer, out);
    feed.took(&answer, out);
    *place += 1;
    Fed::Made
}

// Makes up to 64 steps, after the look at the history.
pub(crate) fn feed_many<S: Served, F: Feed<S>>(
    table: &TurnTable<S>,
    seat: &mut TurnSeat<S>,
    place: &mut u64,
    served: &mut S,
    feed: &mut F,
    event: &mut S::Event,
    out: &mut S::Out,
) -> Burst
    requires cell { (seat.old.table_id ≡ table.now.table_id) × IsTurnTable table.now.table_id }
    requires holds { IsHolding seat.old.me }
    requires served { IsServed S.setting S.stands_for seat.old.me.0 served.old }
    requires seen { seat.old.me.0.seen ≡ seat.old.me.0.whole }
    requires place { place.old ≡ length seat.old.me.0.whole }
    requires open { F.ended feed.old ≡ false }
    requires none { F.given feed.old ≡ None }
    ensures cell { seat.new.table_id ≡ seat.old.table_id }
    ensures made { IsUnderWay S.setting S.stands_for (F.has_taken feed.old feed.new) seat.old.me.0
        result.made seat.new.me served.new place.new }
    ensures most { result.made ≤ BURST }
    ensures few { result.made < BURST → (F.ended feed.new ≡ true) ⊎ (result.spent ≡ true) }
    ensures spent { IsTrue result.spent ↔ IsSome (F.given feed.new) }
    ensures full { result.spent ≡ true → place.new ≡ LONGEST_HISTORY }
    ensures took_last { F.took_last feed.old out.old → F.took_last feed.new out.new }
{
    for made in 0..BURST {
        match feed_one(table, seat, place, served, feed, event, out) {
            Fed::Made => {}
            Fed::Ended => return Burst { made, spent: false },
            Fed::Full => return Burst { made, spent: true },
        }
    }
    Burst {
        made: BURST,
        spent: false,
    }
}
