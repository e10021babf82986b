//! All front ends, and the front end of each stream.

ghost use Rattle.std.specs.Prelude.{◌≡◌, ◌≤◌, None, find, is_some, not, map, replicate, length, vec_len, IfNone, if◌then◌else◌};
ghost use Rattle.std.specs.List.{list_any};
ghost use Rattle.std.specs.Option.{option_map};
ghost use Rattle.satip_fronts.specs.Rows.{is_at};
ghost use Rattle.satip_fronts.specs.Choice.{choose, least, suits};
ghost use Rattle.satip_fronts.specs.Openings.{IsStreamOrNone, blocked_for, is_open, other_places};
ghost use Rattle.satip_fronts.specs.FrontEnds.{IsNumbered, Sound, all_free, blocked, choice, ended, front_of, is_current, is_front, left, moved, mux_at, new_row, outlook, placed_at, state_of, taken};

use crate::choice::{Case, Place, is_tuned, may_take, place_at};
use crate::front_table::{
    FrontRow, FrontState, count_streams, end_front, free_unserved, front_of_stream, is_at_front,
    is_current_row, move_stream, row_at, serves_any, tune_front,
};
use arrayvec::ArrayVec;
use satip_tune::{Front, Mux, Tuning, fits, mux_of};
use std::marker::Model;

/// The front ends, numbered from 1. In contracts they are their descriptions, the multiplexes, the
/// state of each front end, and the front end of each stream.
#[derive(Drop)]
pub struct Fronts {
    fronts: Vec<Front>,
    muxes: Vec<Mux>,
    rows: ArrayVec<FrontRow, 16>,
    places: [Option<u16>; 64],
    // The number of streams at each front end: that of front end f is at f - 1.
    counts: [u16; 16],
}

impl Model for Fronts {
    ghost use Rattle.satip_fronts.specs.FrontEnds.{FrontEnds};

    ghost Value = { FrontEnds };

    ghost use Rattle.satip_fronts.specs.View.{front_ends, Stored};

    ghost view = { front_ends };

    ghost invariant = { Stored };
}

impl Fronts {
    /// Returns front ends that serve no stream and were never tuned.
    pub fn make(fronts: Vec<Front>, muxes: Vec<Mux>) -> Fronts
        requires few { vec_len fronts ≤ 16 }
        requires numbered { IsNumbered 1 fronts.items }
        requires received { vec_len muxes ≤ 256 }
        ensures free { result ≡ all_free fronts.items muxes.items }
        ensures sound { Sound result }
    {
        let rows = new_rows(&fronts);
        let places = no_places();
        Fronts {
            fronts,
            muxes,
            rows,
            places,
            counts: [0; 16],
        }
    }

    /// Returns the state of this front end; `None` if no front end has that number.
    #[tactic(auto, unfolding(crate::specs::FrontEnds::state_of))]
    pub fn state(&self, front: u16) -> Option<FrontState>
        ensures state { result ≡ state_of self.now front }
        ensures none { is_some result ≡ list_any (is_front front) self.now.fronts }
    {
        match row_at(front, &self.rows) {
            None => None,
            Some(row) => Some(FrontState {
                streams: self.counts[front as usize - 1],
                mux: row.mux,
                tune: row.tune,
                ended: row.ended,
            }),
        }
    }

    /// Returns the front end of this number; `None` if there is none.
    pub fn front(&self, number: u16) -> Option<&Front>
        ensures front { option_map (λ f. f.now) result ≡ find (is_front number) self.now.fronts }
    {
        self.fronts.iter().find(|front| front.number == number)
    }

    /// Returns whether the stream is at this front end.
    pub fn serves(&self, front: u16, stream: u16) -> bool
        ensures serves { result ≡ is_at front (front_of self.now.places stream) }
    {
        is_at_front(front, front_of_stream(&self.places, stream))
    }

    /// Returns whether no front end is available for a stream with this tuning. That is if none
    /// fits, or each that fits serves another stream and isn't tuned to the tuning's multiplex.
    /// `stream` is None for one that isn't created yet.
    pub fn is_blocked(&self, stream: Option<u16>, tuning: &Tuning) -> bool
        requires known { IsStreamOrNone stream }
        ensures blocked { result ≡ blocked_for self.now stream tuning.now }
    {
        let mux = mux_of(&self.muxes, tuning);
        let others = self.others(stream);
        !self.has_open(mux, &others, tuning)
    }

    /// Moves the stream to a front end for this tuning, and returns the front end's number. The
    /// first of these that is possible is done:
    /// - the stream stays, if its front end fits and is tuned to the multiplex of the tuning;
    /// - it joins the least other front end that does;
    /// - its own front end is retuned, if that fits and serves no other stream;
    /// - the least free front end that fits is tuned.
    /// `None` if no front end is available; then nothing changes.
    pub fn take(&mut self, stream: u16, tuning: &Tuning) -> Option<u16>
        requires from_one { 1 ≤ stream }
        requires to_64 { stream ≤ 64 }
        ensures chosen { result ≡ option_map (λ place. place.front)
            (choice self.old stream tuning.now) }
        ensures none { is_some result ≡ not (blocked self.old stream tuning.now) }
        ensures moved { self.new ≡ taken self.old stream tuning.now }
        ensures unchanged { IfNone result (self.new ≡ self.old) }
        ensures sound { Sound self.new }
    {
        let mux = mux_of(&self.muxes, tuning);
        match self.place_for(stream, mux, tuning) {
            None => None,
            Some(place) => {
                move_stream(&mut self.rows, &mut self.places, stream, place, mux);
                self.counts = count_streams(&self.places);
                Some(place.front)
            }
        }
    }

    /// Removes the stream from its front end, if it has one. The front end is free then, if the
    /// stream was its last.
    pub fn leave(&mut self, stream: u16)
        requires from_one { 1 ≤ stream }
        requires to_64 { stream ≤ 64 }
        ensures left { self.new ≡ left self.old stream }
        ensures sound { Sound self.new }
    {
        self.places[stream as usize - 1] = None;
        free_unserved(&mut self.rows, &self.places);
        self.counts = count_streams(&self.places);
    }

    /// Marks the recording with this tune number at a front end as ended. Returns `false` if there
    /// is no such front end, it serves no stream or it has another tune number.
    pub fn end(&mut self, front: u16, tune: u64) -> bool
        ensures current { result ≡ is_current self.old front tune }
        ensures ended { self.new ≡ (if result then ended self.old front else self.old) }
        ensures sound { Sound self.new }
    {
        let current = is_current_row(front, tune, &self.rows, &self.places);
        if current {
            end_front(&mut self.rows, front);
        }
        current
    }

    /// Returns whether the front end serves a stream other than this one.
    fn is_shared(&self, front: u16, stream: u16) -> bool
        requires from_one { 1 ≤ stream }
        requires to_64 { stream ≤ 64 }
        ensures shared { result ≡ list_any (is_at front) (placed_at self.now.places stream None) }
    {
        let mut others = self.places;
        others[stream as usize - 1] = None;
        serves_any(front, &others)
    }

    /// Returns the front ends of all other streams.
    fn others(&self, stream: Option<u16>) -> [Option<u16>; 64]
        requires known { IsStreamOrNone stream }
        ensures places { result ≡ other_places self.now.places stream }
    {
        match stream {
            None => self.places,
            Some(number) => {
                let mut others = self.places;
                others[number as usize - 1] = None;
                others
            }
        }
    }

    /// Returns whether the front end fits, and is tuned to the wanted multiplex or at none of these
    /// places.
    fn is_open_at(
        &self,
        mux: Option<u16>,
        others: &[Option<u16>],
        tuning: &Tuning,
        front: &Front,
    ) -> bool
        ensures opening { result ≡ is_open self.now.rows mux others.now tuning.now front.now }
    {
        let tuned = is_tuned(mux, self.mux_of_front(front.number));
        fits(front, tuning) && !(serves_any(front.number, others) && !tuned)
    }

    /// Returns whether any front end is open in this sense.
    fn has_open(&self, mux: Option<u16>, others: &[Option<u16>], tuning: &Tuning) -> bool
        ensures found { result ≡ is_some (find (is_open self.now.rows mux others.now tuning.now)
            self.now.fronts) }
    {
        for front in &self.fronts {
            if self.is_open_at(mux, others, tuning, front) {
                return true;
            }
        }
        false
    }

    /// Returns the multiplex of a front end, if it has one.
    #[tactic(auto, unfolding(crate::specs::FrontEnds::mux_at))]
    fn mux_of_front(&self, front: u16) -> Option<u16>
        ensures mux { result ≡ mux_at self.now.rows front }
    {
        match row_at(front, &self.rows) {
            None => None,
            Some(row) => row.mux,
        }
    }

    /// Returns whether the front end fits and may be taken in this case.
    #[tactic(auto, unfolding(crate::specs::FrontEnds::outlook, crate::specs::Choice::may_take))]
    fn is_suited(
        &self,
        case: Case,
        stream: u16,
        mux: Option<u16>,
        tuning: &Tuning,
        front: &Front,
    ) -> bool
        requires from_one { 1 ≤ stream }
        requires to_64 { stream ≤ 64 }
        ensures suited { result ≡ suits case (outlook self.now stream) mux tuning.now front.now }
    {
        let own = self.serves(front.number, stream);
        let tuned = is_tuned(mux, self.mux_of_front(front.number));
        let shared = self.is_shared(front.number, stream);
        fits(front, tuning) && may_take(case, own, tuned, shared)
    }

    /// Returns the least front end that fits and may be taken in this case.
    #[tactic(auto, unfolding(crate::specs::Choice::least))]
    fn least_of(&self, case: Case, stream: u16, mux: Option<u16>, tuning: &Tuning) -> Option<u16>
        requires from_one { 1 ≤ stream }
        requires to_64 { stream ≤ 64 }
        ensures least { result ≡ least case (outlook self.now stream) mux tuning.now }
    {
        for front in &self.fronts {
            if self.is_suited(case, stream, mux, tuning, front) {
                return Some(front.number);
            }
        }
        None
    }

    /// Returns the place of a stream that wants this multiplex with this tuning.
    #[tactic(auto, unfolding(crate::specs::Choice::choose))]
    fn place_for(&self, stream: u16, mux: Option<u16>, tuning: &Tuning) -> Option<Place>
        requires from_one { 1 ≤ stream }
        requires to_64 { stream ≤ 64 }
        ensures place { result ≡ choose (outlook self.now stream) mux tuning.now }
    {
        let kept = place_at(false, self.least_of(Case::Keep, stream, mux, tuning));
        let shared = place_at(false, self.least_of(Case::Share, stream, mux, tuning));
        let retuned = place_at(true, self.least_of(Case::Retune, stream, mux, tuning));
        let started = place_at(true, self.least_of(Case::Start, stream, mux, tuning));
        kept.or(shared).or(retuned).or(started)
    }
}

/// Returns the places of streams that are at no front end.
fn no_places() -> [Option<u16>; 64]
    ensures places { result ≡ replicate 64 None }
{
    [None; 64]
}

/// Returns the rows of front ends that were never tuned.
#[tactic(auto, unfolding(crate::specs::FrontEnds::new_row))]
fn new_rows(fronts: &[Front]) -> ArrayVec<FrontRow, 16>
    requires few { length fronts.now ≤ 16 }
    ensures rows { result.items ≡ map new_row fronts.now }
{
    let mut rows = ArrayVec::new();
    for front in fronts {
        rows.push(FrontRow {
            number: front.number,
            mux: None,
            tune: 0,
            ended: false,
        });
    }
    rows
}
