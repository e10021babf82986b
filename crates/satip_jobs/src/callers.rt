//! Splits off the callers of all jobs of a kind, and joins them again.

ghost use Rattle.std.specs.Prelude.{◌≡◌, ◌+◌, ◌<◌, ◌≤◌, ◌++◌, [], map, vec_len, vec_capacity};
ghost use Rattle.satip_base.specs.Lists.{Begins};
ghost use Rattle.satip_turn.specs.Shown.{IsUnused, Knows, joined, newborn, with_made};
ghost use Rattle.satip_jobs.specs.Crews.{AreAlone, Begun, Joins, pass_numbers};
ghost use Rattle.satip_jobs.specs.Ends.{worst};

use crate::crew::Crew;
use crate::end::ServeEnd;
use crate::lists::{put_last, take_first};
use crate::seat::Seat;

// Creates a job that hasn't begun, with a new caller.
pub(crate) fn seat_one<X: Crew, K, M>(
    root: &mut X,
    kit: K,
    gear: X::Gear,
    room: M,
    number: u16,
) -> Seat<X, K, M>
    ensures cell { X.cell root.new ≡ X.cell root.old }
    ensures root_gear { X.gear root.new ≡ X.gear root.old }
    ensures unused { IsUnused (X.pass root.old) (X.pass result.caller).number }
    ensures made { X.pass root.new
        ≡ with_made (X.pass root.old) (X.pass result.caller).number }
    ensures knows { Knows (X.legal (X.cell root.old).setting) (X.pass root.new) }
    ensures same_cell { X.cell result.caller ≡ X.cell root.old }
    ensures new { X.pass result.caller
        ≡ newborn (X.pass root.old) (X.pass result.caller).number }
    ensures gear { X.gear result.caller ≡ gear }
    ensures kit { result.kit ≡ kit }
    ensures number { result.number ≡ number }
{
    let caller = root.split(gear);
    Seat {
        caller,
        kit,
        room,
        number,
        end: ServeEnd::Served,
    }
}

// Creates a job for each kit, in order, each with a new caller.
pub(crate) fn seat_all<X: Crew, K, M>(
    root: &mut X,
    kits: &mut Vec<K>,
    gears: &mut Vec<X::Gear>,
    rooms: &mut Vec<M>,
    seats: &mut Vec<Seat<X, K, M>>,
)
    requires empty { seats.old.items ≡ [] }
    requires gears { vec_len gears.old ≡ vec_len kits.old }
    requires rooms { vec_len rooms.old ≡ vec_len kits.old }
    requires space { vec_len kits.old ≤ vec_capacity seats.old }
    requires few { vec_len kits.old < 65536 }
    ensures cell { X.cell root.new ≡ X.cell root.old }
    ensures gear { X.gear root.new ≡ X.gear root.old }
    ensures number { (X.pass root.new).number ≡ (X.pass root.old).number }
    ensures own { (X.pass root.new).own ≡ (X.pass root.old).own }
    ensures kept { (X.pass root.new).kept ≡ (X.pass root.old).kept }
    ensures made { (X.pass root.new).made ≡ (X.pass root.old).made
        ++ pass_numbers X.pass seats.new.items }
    ensures empty { kits.new.items ≡ [] }
    ensures no_gears { gears.new.items ≡ [] }
    ensures begun { Begun X.cell X.pass X.gear (X.cell root.old) kits.old.items gears.old.items
        seats.new.items }
    ensures seated { vec_len seats.new ≤ vec_capacity kits.new }
    ensures geared { vec_len seats.new ≤ vec_capacity gears.new }
{
    let mut number: u16 = 0;
    while !kits.is_empty() {
        number += 1;
        let kit = take_first(kits);
        let gear = take_first(gears);
        let room = take_first(rooms);
        let seat = seat_one(root, kit, gear, room, number);
        put_last(seats, seat);
    }
}

// Joins the pass of a job's caller; returns the job's kit, its gear and its end.
pub(crate) fn join_one<X: Crew, K, M: Drop>(
    root: &mut X,
    seat: Seat<X, K, M>,
) -> (K, X::Gear, ServeEnd)
    requires cell { X.cell seat.caller ≡ X.cell root.old }
    ensures cell { X.cell root.new ≡ X.cell root.old }
    ensures root_gear { X.gear root.new ≡ X.gear root.old }
    ensures joined { X.pass root.new ≡ joined (X.pass root.old) (X.pass seat.caller) }
    ensures mine { Begins (X.pass root.old).seen (X.pass root.new).seen }
    ensures theirs { Begins (X.pass seat.caller).seen (X.pass root.new).seen }
    ensures knows { Knows (X.legal (X.cell root.old).setting) (X.pass root.new) }
    ensures kit { result.0 ≡ seat.kit }
    ensures gear { result.1 ≡ X.gear seat.caller }
    ensures end { result.2 ≡ seat.end }
{
    let Seat {
        caller,
        kit,
        room: _,
        number: _,
        end,
    } = seat;
    let gear = root.join(caller);
    (kit, gear, end)
}

// Joins the passes of all callers, in order. Gives back their kits and gears; returns the worst of
// their ends.
pub(crate) fn join_all<X: Crew, K, M: Drop>(
    root: &mut X,
    seats: &mut Vec<Seat<X, K, M>>,
    kits: &mut Vec<K>,
    gears: &mut Vec<X::Gear>,
) -> ServeEnd
    requires knows { Knows (X.legal (X.cell root.old).setting) (X.pass root.old) }
    requires alone { AreAlone X.cell X.pass (X.cell root.old) seats.old.items }
    requires no_kits { kits.old.items ≡ [] }
    requires no_gears { gears.old.items ≡ [] }
    requires kit_space { vec_len seats.old ≤ vec_capacity kits.old }
    requires gear_space { vec_len seats.old ≤ vec_capacity gears.old }
    ensures cell { X.cell root.new ≡ X.cell root.old }
    ensures root_gear { X.gear root.new ≡ X.gear root.old }
    ensures knows { Knows (X.legal (X.cell root.old).setting) (X.pass root.new) }
    ensures joins { Joins X.pass (X.pass root.old) (X.pass root.new) seats.old.items }
    ensures kits { kits.new.items ≡ map (λ s. s.kit) seats.old.items }
    ensures gears { gears.new.items ≡ map (λ s. X.gear s.caller) seats.old.items }
    ensures end { result ≡ worst (map (λ s. s.end) seats.old.items) }
{
    let mut worst = ServeEnd::Served;
    while !seats.is_empty() {
        let (kit, gear, end) = join_one(root, take_first(seats));
        put_last(kits, kit);
        put_last(gears, gear);
        worst = worst.and(end);
    }
    worst
}
