//! The steps of one seat at the cell's table.
ghost use Rattle.std.specs.Prelude.{◌≡◌, ◌+◌, ◌^◌, ◌<◌, [], ◌∷◌, ◌++◌, length, Some, IfSome, IfNone};
ghost use Rattle.satip_base.specs.History.{entry};
ghost use Rattle.satip_turn.specs.declared.view.Content.TheVariants.{Away};
ghost use Rattle.satip_turn.specs.Faithful.{IsSound};
ghost use Rattle.satip_turn.specs.Steps.{meeting, looking, committed, resting};
ghost use Rattle.satip_turn.specs.Seats.{IsTurnTable, IsIdle, IsHolding, IsServed, TakesTurn};

use crate::rule::{Commit, Give, Look, Take, Turns};
use crate::view::{Content, Sight, Slot};
use atomic_table::{Seat, Shared};
use satip_base::Served;
use std::snapshot::Snapshot;

pub(crate) type TurnTable<S> = Shared<Slot<S>, Sight<S>, Snapshot<S>, Turns>;

pub(crate) type TurnSeat<S> = Seat<Slot<S>, Sight<S>>;

// Tries once to take the turn, and the served value with it.
pub(crate) fn take<S: Served>(table: &TurnTable<S>, seat: &mut TurnSeat<S>) -> Option<Box<S>>
    requires cell { (seat.old.table_id ≡ table.now.table_id) × IsTurnTable table.now.table_id }
    requires idle { IsIdle seat.old.me }
    ensures cell { seat.new.table_id ≡ seat.old.table_id }
    ensures taken { IfSome result
        (λ served. TakesTurn S.setting S.stands_for seat.old.me seat.new.me served.value) }
    ensures met { IfNone result (seat.new.me ≡ (meeting seat.old.me.0, [])) }
{
    if table.compare_exchange::<Take>(seat, 0, 0, 1) != 0 {
        return None;
    }
    match table.exchange(seat, 0, Content::Away) {
        Content::Home(served) => Some(served),
        Content::Away => unreachable!(),
        Content::Said(_, _, _) => unreachable!(),
    }
}

// Reads the length of the history under the turn; the seat has then seen the whole of it.
pub(crate) fn look<S: Served>(table: &TurnTable<S>, seat: &mut TurnSeat<S>) -> u64
    requires cell { (seat.old.table_id ≡ table.now.table_id) × IsTurnTable table.now.table_id }
    requires holds { IsHolding seat.old.me }
    ensures cell { seat.new.table_id ≡ seat.old.table_id }
    ensures looked { seat.new.me ≡ (looking seat.old.me.0, (0, Away) ∷ []) }
    ensures length { result ≡ length seat.old.me.0.whole }
{
    table.load::<Look>(seat, 1)
}

// Commits one entry; the addition to the length fixes its place.
pub(crate) fn commit<S: Served>(
    table: &TurnTable<S>,
    seat: &mut TurnSeat<S>,
    event: &S::Event,
    answer: &S::Answer,
    out: &S::Out,
)
    requires cell { (seat.old.table_id ≡ table.now.table_id) × IsTurnTable table.now.table_id }
    requires holds { IsHolding seat.old.me }
    requires seen { seat.old.me.0.seen ≡ seat.old.me.0.whole }
    requires room { length seat.old.me.0.whole + 1 < 2 ^ 64 }
    requires lawful { (c : S.Setting) → seat.old.me.0.setting ≡ Some c → S.legal c
        (seat.old.me.0.whole
        ++ entry seat.old.me.0.number event.now answer.now out.now ∷ []) }
    ensures cell { seat.new.table_id ≡ seat.old.table_id }
    ensures committed { seat.new.me ≡ (
      committed seat.old.me.0
          (entry seat.old.me.0.number event.now answer.now out.now),
      (0, Away) ∷ [],
    ) }
{
    let said = Content::Said(Snapshot::of(event), Snapshot::of(answer), Snapshot::of(out));
    drop(table.exchange(seat, 0, said));
    table.fetch_add::<Commit>(seat, 1, 1);
    drop(table.exchange(seat, 0, Content::Away));
}

// Puts the served value back and gives up the turn.
pub(crate) fn give<S: Served>(table: &TurnTable<S>, seat: &mut TurnSeat<S>, served: Box<S>)
    requires cell { (seat.old.table_id ≡ table.now.table_id) × IsTurnTable table.now.table_id }
    requires holds { IsHolding seat.old.me }
    requires served { IsServed S.setting S.stands_for seat.old.me.0 served.value }
    ensures cell { seat.new.table_id ≡ seat.old.table_id }
    ensures given { seat.new.me ≡ (resting seat.old.me.0, []) }
    ensures sound { IsSound S.legal (resting seat.old.me.0) }
{
    drop(table.exchange(seat, 0, Content::Home(served)));
    table.swap::<Give>(seat, 0, 0);
}
