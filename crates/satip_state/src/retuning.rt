//! Tunings of a stream, and its changes by a query.

ghost use Rattle.std.specs.Prelude.{◌≡◌, ◌+◌, ◌≤◌, Some, is_some, true};
ghost use Rattle.std.specs.Option.{option_map_or};
ghost use Rattle.satip_plain.specs.Types.{Config, Pids};
ghost use Rattle.satip_plain.specs.State.{State, Stream, stream_of};
ghost use Rattle.satip_plain.specs.Sending.{settle};
ghost use Rattle.satip_plain.specs.Streams.{change_by as changed_by, change_stream, new_pids as pids_after, retune as retuned};
ghost use Rattle.satip_state.specs.Asking.{Asks, HasPids, gives_pids};
ghost use Rattle.satip_state.specs.Placing.{placed_in};
ghost use Rattle.satip_state.specs.Standing.{Moved, StandsFor};

use crate::asking::asks_pids;
use crate::parts::Parts;
use satip_base::Out;
use satip_base::limits::{DATAGRAMS, SESSIONS};
use satip_pids::PidSet;
use satip_query::Query;
use satip_tune::Tuning;

/// The greatest number of a stream.
const STREAMS: u16 = SESSIONS as u16;

impl Parts {
    /// Tunes a living stream: the held packets of its sessions leave, and it moves to the front end
    /// that is available for this tuning. If none is available, it stays where it is.
    pub fn retune(&mut self, number: u16, tuning: &Tuning, out: &mut Out)
        requires bytes { DATAGRAMS ≤ out.old.datagram_spare }
        requires count { SESSIONS ≤ out.old.count_spare }
        ensures moved { (c : Config) (st : State) → StandsFor c self.old st
            → is_some (stream_of st number) ≡ true
            → Moved c self.new out.old out.new (retuned c number st tuning.now) }
        ensures bytes_spare { out.old.datagram_spare ≤ out.new.datagram_spare + DATAGRAMS }
        ensures count_spare { out.old.count_spare ≤ out.new.count_spare + SESSIONS }
    {
        self.flush_stream(number, out);
        self.place(number, tuning);
    }

    /// Moves a living stream to the front end that is available for this tuning.
    fn place(&mut self, number: u16, tuning: &Tuning)
        ensures placed { (c : Config) (st : State) → StandsFor c self.old st
            → is_some (stream_of st number) ≡ true
            → StandsFor c self.new (placed_in c number tuning.now st) }
    {
        let Some(stream) = self.table.find_stream(number) else {
            return;
        };
        if number > STREAMS {
            return;
        }
        let pids = stream.pids.copy();
        let Some(front) = self.fronts.take(number, tuning) else {
            return;
        };
        self.table
            .change(number, Some(*tuning), Some(front), pids.copy());
        self.flow.change(number, Some(front), &pids);
    }

    /// Changes a living stream by a query: its tuning first, then its PIDs. `tuning` is the tuning
    /// to set, and `pids` are the PIDs after the query if it gives a list of them.
    pub fn change_by(
        &mut self,
        number: u16,
        query: &Query,
        tuning: Option<Tuning>,
        pids: &PidSet,
        out: &mut Out,
    )
        requires bytes { DATAGRAMS ≤ out.old.datagram_spare }
        requires count { SESSIONS ≤ out.old.count_spare }
        ensures moved { (c : Config) (st : State) (t : Stream) → StandsFor c self.old st
            → stream_of st number ≡ Some t → Asks t.tuning t.pids query.now tuning pids.now
            → Moved c self.new out.old out.new (changed_by c number query.now st) }
        ensures bytes_spare { out.old.datagram_spare ≤ out.new.datagram_spare + DATAGRAMS }
        ensures count_spare { out.old.count_spare ≤ out.new.count_spare + SESSIONS }
    {
        let Some(_stream) = self.table.find_stream(number) else {
            return;
        };
        self.tune_to(number, tuning, out);
        self.select_by(number, query, pids);
    }

    /// Sets the tuning of a living stream, if one is given.
    fn tune_to(&mut self, number: u16, tuning: Option<Tuning>, out: &mut Out)
        requires bytes { DATAGRAMS ≤ out.old.datagram_spare }
        requires count { SESSIONS ≤ out.old.count_spare }
        ensures moved { (c : Config) (st : State) → StandsFor c self.old st
            → is_some (stream_of st number) ≡ true
            → Moved c self.new out.old out.new
            (option_map_or (retuned c number st) tuning (settle st)) }
        ensures bytes_spare { out.old.datagram_spare ≤ out.new.datagram_spare + DATAGRAMS }
        ensures count_spare { out.old.count_spare ≤ out.new.count_spare + SESSIONS }
    {
        let Some(tuning) = tuning else {
            return;
        };
        self.retune(number, &tuning, out);
    }

    /// Sets the PIDs of a stream, if the query gives a list of them.
    fn select_by(&mut self, number: u16, query: &Query, pids: &PidSet)
        ensures selected { (c : Config) (st : State) (own : Pids) → StandsFor c self.old st
            → HasPids number own st.streams
            → (gives_pids query.now ≡ true → pids.now ≡ pids_after own query.now)
            → StandsFor c self.new
            (change_stream number (λ t. record t { pids = pids_after t.pids query.now }) st) }
    {
        if !asks_pids(query) {
            return;
        }
        self.change_pids(number, pids);
    }
}
