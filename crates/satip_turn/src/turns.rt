//! Whole turns of one seat, from taking the turn to giving it up.
ghost use Rattle.std.specs.Prelude.{◌≡◌, ◌+◌, ◌^◌, ◌<◌, [], ◌∷◌, length, ◌↔◌, IsErr, OnErr, MatchResult};
ghost use Rattle.satip_base.specs.History.{entry};
ghost use Rattle.satip_turn.specs.Faithful.{IsSound};
ghost use Rattle.satip_turn.specs.Steps.{looking, resting};
ghost use Rattle.satip_turn.specs.Seats.{IsTurnTable, IsIdle, IsHolding, IsServed, WaitsTurn, after_entry};

use crate::seat::{TurnSeat, TurnTable, commit, give, look, take};
use satip_base::limits::LONGEST_HISTORY;
use satip_base::{Served, Spent};
use std::sync::Wait;
use std::thread;

// Tries to take the turn until it succeeds.
pub(crate) fn wait_turn<S: Served, R: Wait>(
    rt: &R,
    table: &TurnTable<S>,
    seat: &mut TurnSeat<S>,
) -> Box<S>
    requires cell { (seat.old.table_id ≡ table.now.table_id) × IsTurnTable table.now.table_id }
    requires idle { IsIdle seat.old.me }
    ensures cell { seat.new.table_id ≡ seat.old.table_id }
    ensures taken { WaitsTurn S.setting S.stands_for seat.old.me seat.new.me result.value }
{
    for _ in rt.forever() {
        if let Some(served) = take(table, seat) {
            return served;
        }
        thread::yield_now();
    }
    unreachable!()
}

// Makes one call under the turn, and gives it up.
pub(crate) fn serve_turn<S: Served>(
    table: &TurnTable<S>,
    seat: &mut TurnSeat<S>,
    place: &mut u64,
    mut served: Box<S>,
    event: &S::Event,
    out: &mut S::Out,
) -> Result<S::Answer, Spent>
    requires cell { (seat.old.table_id ≡ table.now.table_id) × IsTurnTable table.now.table_id }
    requires holds { IsHolding seat.old.me }
    requires served { IsServed S.setting S.stands_for seat.old.me.0 served.value }
    requires fits { length seat.old.me.0.whole < 2 ^ 64 }
    ensures cell { seat.new.table_id ≡ seat.old.table_id }
    ensures seat { MatchResult result
        (λ answer. seat.new.me ≡ (
          after_entry seat.old.me.0
              (entry seat.old.me.0.number event.now answer out.new),
          [],
        ))
        (λ _. seat.new.me ≡ (resting (looking seat.old.me.0), [])) }
    ensures sound { IsSound S.legal seat.new.me.0 }
    ensures place { place.new ≡ length seat.new.me.0.seen }
    ensures full { IsErr result ↔ (length seat.old.me.0.whole ≡ LONGEST_HISTORY) }
    ensures out { OnErr result (out.new ≡ out.old) }
{
    let length = look(table, seat);
    if length == u64::MAX {
        *place = length;
        give(table, seat, served);
        return Err(Spent);
    }
    let answer = served.serve(event, out);
    commit(table, seat, event, &answer, out);
    *place = length + 1;
    give(table, seat, served);
    Ok(answer)
}
