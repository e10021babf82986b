//! Passes that are split off from others and joined into others.
ghost use Rattle.std.specs.Prelude.{◌≡◌, false, []};
ghost use Rattle.satip_base.specs.Lists.{Begins};
ghost use Rattle.satip_turn.specs.Faithful.{IsSound};
ghost use Rattle.satip_turn.specs.Steps.{joining, heeding};
ghost use Rattle.satip_turn.specs.Seats.{IsTurnTable, IsResting, Parts};
ghost use Rattle.satip_turn.specs.Shown.{IsOf, Knows, IsUnused, with_made, newborn, joined};

use crate::cell::{Pass, TurnCell};
use crate::rule::{Draw, Hear, JoinIn, SplitOff};
use crate::seat::{TurnSeat, TurnTable};
use satip_base::Served;

// Draws a new number, and gives it to a new seat.
fn split_seat<S: Served>(table: &TurnTable<S>, seat: &mut TurnSeat<S>) -> TurnSeat<S>
    requires cell { (seat.old.table_id ≡ table.now.table_id) × IsTurnTable table.now.table_id }
    requires resting { IsResting S.legal seat.old.me }
    ensures cell { seat.new.table_id ≡ seat.old.table_id }
    ensures cell_too { result.table_id ≡ seat.old.table_id }
    ensures parts { Parts S.legal seat.old.me seat.new.me result.me }
{
    table.load::<Draw>(seat, 0);
    table.split_seat::<SplitOff>(seat)
}

// Joins the other seat into the first.
fn join_seat<S: Served>(table: &TurnTable<S>, seat: &mut TurnSeat<S>, other: TurnSeat<S>)
    requires cell { (seat.old.table_id ≡ table.now.table_id) × IsTurnTable table.now.table_id }
    requires cell_too { other.table_id ≡ table.now.table_id }
    requires resting { IsResting S.legal seat.old.me }
    requires other { IsResting S.legal other.me }
    ensures cell { seat.new.table_id ≡ seat.old.table_id }
    ensures joined { seat.new.me ≡ (heeding (joining seat.old.me.0 other.me.0), []) }
    ensures mine { Begins seat.old.me.0.seen seat.new.me.0.seen }
    ensures theirs { Begins other.me.0.seen seat.new.me.0.seen }
    ensures sound { IsSound S.legal seat.new.me.0 }
{
    table.join_seat::<JoinIn>(seat, other);
    table.load::<Hear>(seat, 0);
}

impl<S: Served> TurnCell<S> {
    /// Creates a pass that has seen what `pass` has. Its number is new to `pass`: neither held, nor
    /// given to another pass, nor in an entry seen.
    pub fn split(&self, pass: &mut Pass<S>) -> Pass<S>
        requires { IsOf pass.old self.now }
        ensures of { IsOf pass.new self.now }
        ensures rests { pass.new.turn ≡ false }
        ensures unused { IsUnused pass.old result.number }
        ensures made { pass.new ≡ with_made pass.old result.number }
        ensures new { result ≡ newborn pass.old result.number }
        ensures of_too { IsOf result self.now }
        ensures knows { Knows (S.legal self.now.setting) pass.new }
        ensures knows_too { Knows (S.legal self.now.setting) result }
    {
        Pass {
            seat: split_seat(&self.table.shared, &mut pass.seat),
            place: pass.place,
        }
    }

    /// Joins another pass of the cell into this one: what it has seen, its entries, and the passes
    /// that it made.
    pub fn join(&self, pass: &mut Pass<S>, other: Pass<S>)
        requires mine { IsOf pass.old self.now }
        requires theirs { IsOf other self.now }
        ensures of { IsOf pass.new self.now }
        ensures rests { pass.new.turn ≡ false }
        ensures joined { pass.new ≡ joined pass.old other }
        ensures seen { Begins pass.old.seen pass.new.seen }
        ensures seen_too { Begins other.seen pass.new.seen }
        ensures knows { Knows (S.legal self.now.setting) pass.new }
    {
        let Pass { seat, place } = other;
        join_seat(&self.table.shared, &mut pass.seat, seat);
        if pass.place < place {
            pass.place = place;
        }
    }
}
