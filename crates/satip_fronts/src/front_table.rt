//! The state of each front end.

ghost use Rattle.std.specs.Prelude.{◌≡◌, ◌<◌, ◌≤◌, Some, EachIndex, find, length, map, slice_index};
ghost use Rattle.std.specs.List.{list_any};
ghost use Rattle.satip_fronts.specs.FrontEnds.{front_of, is_current_in, placed_at, tuned_rows};
ghost use Rattle.satip_fronts.specs.Rows.{AreCounted, CountedMore, ended_at, freed, is_at, is_row, tuned_at};

use crate::choice::Place;

/// The state of a front end with its number, as contracts see it. The other fields are those of
/// `FrontState`.
#[derive(Clone, Copy, Debug, Default, PartialEq, Eq)]
pub struct FrontRow {
    pub number: u16,
    pub mux: Option<u16>,
    pub tune: u64,
    pub ended: bool,
}

/// The state of a front end. `streams` is the number of its streams, `mux` the number of its
/// multiplex, `tune` its tune number. `ended` is whether the recording of the multiplex has ended.
#[derive(Clone, Copy, Debug, PartialEq, Eq)]
pub struct FrontState {
    pub streams: u16,
    pub mux: Option<u16>,
    pub tune: u64,
    pub ended: bool,
}

/// Returns whether a stream with this place is at this front end.
pub fn is_at_front(front: u16, place: Option<u16>) -> bool
    ensures at { result ≡ is_at front place }
{
    match place {
        None => false,
        Some(number) => number == front,
    }
}

/// Returns whether any of the streams with these places is at this front end.
pub fn serves_any(front: u16, places: &[Option<u16>]) -> bool
    ensures served { result ≡ list_any (is_at front) places.now }
{
    places.iter().any(|place| is_at_front(front, *place))
}

/// Returns the front end of a stream, given the places of all streams.
#[tactic(auto, unfolding(crate::specs::FrontEnds::front_of))]
pub fn front_of_stream(places: &[Option<u16>], stream: u16) -> Option<u16>
    ensures front { result ≡ front_of places.now stream }
{
    if stream == 0 {
        return None;
    }
    match places.get(stream as usize - 1) {
        None => None,
        Some(place) => *place,
    }
}

/// Returns the row of this front end.
pub fn row_at(front: u16, rows: &[FrontRow]) -> Option<FrontRow>
    ensures row { result ≡ find (is_row front) rows.now }
{
    for row in rows {
        if row.number == front {
            return Some(*row);
        }
    }
    None
}

/// Returns the row, retuned if it is that of this front end.
#[tactic(auto, unfolding(crate::specs::Rows::tuned_at, crate::specs::Rows::tuned_row))]
fn tuned_row(front: u16, mux: Option<u16>, row: FrontRow) -> FrontRow
    ensures tuned { result ≡ tuned_at front mux row }
{
    if row.number == front {
        FrontRow {
            mux,
            tune: row.tune.wrapping_add(1),
            ended: false,
            ..row
        }
    } else {
        row
    }
}

/// Tunes a front end: it gets the next tune number.
pub fn tune_front(rows: &mut [FrontRow], front: u16, mux: Option<u16>)
    ensures tuned { rows.new ≡ map (tuned_at front mux) rows.old }
{
    for i in 0..rows.len() {
        rows[i] = tuned_row(front, mux, rows[i]);
    }
}

/// Returns the row, freed if no stream is at its front end.
#[tactic(auto, unfolding(crate::specs::Rows::freed, crate::specs::Rows::free_row))]
fn freed_row(places: &[Option<u16>], row: FrontRow) -> FrontRow
    ensures freed { result ≡ freed places.now row }
{
    if serves_any(row.number, places) {
        row
    } else {
        FrontRow {
            mux: None,
            ended: false,
            ..row
        }
    }
}

/// Tunes the place's front end, if the place says so.
#[tactic(auto, unfolding(crate::specs::FrontEnds::tuned_rows))]
fn tune_place(rows: &mut [FrontRow], place: Place, mux: Option<u16>)
    ensures tuned { rows.new ≡ tuned_rows place mux rows.old }
{
    if place.anew {
        tune_front(rows, place.front, mux);
    }
}

/// Moves a stream to this place, and frees its former front end if no stream is left there.
pub fn move_stream(
    rows: &mut [FrontRow],
    places: &mut [Option<u16>],
    stream: u16,
    place: Place,
    mux: Option<u16>,
)
    requires from_one { 1 ≤ stream }
    requires within { stream ≤ length places.old }
    ensures places { places.new ≡ placed_at places.old stream (Some place.front) }
    ensures rows { rows.new ≡ map (freed places.new) (tuned_rows place mux rows.old) }
{
    tune_place(rows, place, mux);
    places[stream as usize - 1] = Some(place.front);
    free_unserved(rows, places);
}

/// Frees each front end that serves no stream.
pub fn free_unserved(rows: &mut [FrontRow], places: &[Option<u16>])
    ensures freed { rows.new ≡ map (freed places.now) rows.old }
{
    for i in 0..rows.len() {
        rows[i] = freed_row(places, rows[i]);
    }
}

/// Returns the row, with its recording ended if it is that of this front end.
#[tactic(auto, unfolding(crate::specs::Rows::ended_at))]
fn ended_row(front: u16, row: FrontRow) -> FrontRow
    ensures ended { result ≡ ended_at front row }
{
    if row.number == front {
        FrontRow { ended: true, ..row }
    } else {
        row
    }
}

/// Marks the recording of a front end as ended.
pub fn end_front(rows: &mut [FrontRow], front: u16)
    ensures ended { rows.new ≡ map (ended_at front) rows.old }
{
    for i in 0..rows.len() {
        rows[i] = ended_row(front, rows[i]);
    }
}

/// Returns the number of streams at each front end, given the places of all streams.
pub fn count_streams(places: &[Option<u16>]) -> [u16; 16]
    requires few { length places.now ≤ 64 }
    ensures counted { AreCounted places.now result }
{
    let mut counts = [0; 16];
    for place in places {
        count_place(&mut counts, *place);
    }
    counts
}

/// Counts one more stream, if it is at a front end.
fn count_place(counts: &mut [u16; 16], place: Option<u16>)
    requires room { EachIndex counts.old (λ k. slice_index counts.old k < 64) }
    ensures counted { CountedMore place counts.old counts.new }
{
    let Some(front) = place else {
        return;
    };
    if front > 0 && front <= 16 {
        counts[front as usize - 1] += 1;
    }
}

/// Returns whether the front end serves a stream and has this tune number.
pub fn is_current_row(front: u16, tune: u64, rows: &[FrontRow], places: &[Option<u16>]) -> bool
    ensures current { result ≡ is_current_in rows.now places.now front tune }
{
    match row_at(front, rows) {
        None => false,
        Some(row) => serves_any(front, places) && row.tune == tune,
    }
}
