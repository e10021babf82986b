//! Views of streams, as clients see them.

ghost use Rattle.std.specs.Prelude.{◌≡◌, ◌≤◌, length, is_some, option_and_then, option_map, slice_get, ◌==◌, ◌&&◌};
ghost use Rattle.std.specs.List.{list_any};
ghost use Rattle.satip_fronts.specs.FrontEnds.{mux_at};
ghost use Rattle.satip_plain.specs.Types.{Config};
ghost use Rattle.satip_plain.specs.State.{State, stream_of};
ghost use Rattle.satip_plain.specs.Steps.{view_of};
ghost use Rattle.satip_state.specs.Standing.{StandsFor};
ghost use Rattle.satip_state.specs.Views.{kept_view, plays_in};

use crate::parts::Parts;
use satip_base::limits::SESSIONS;
use satip_rtcp::StreamView;
use satip_table::{Session, Stream};

impl Parts {
    /// Returns the view of the stream of this number; None if the stream isn't alive.
    pub fn view(&self, number: u16) -> Option<StreamView>
        ensures view { (c : Config) (st : State) → StandsFor c self.now st
            → result ≡ option_map (view_of st) (stream_of st number) }
    {
        match self.table.find_stream(number) {
            None => None,
            Some(stream) => Some(self.shown(stream)),
        }
    }

    /// Returns the view of the stream at this place, from 0, in rising number; None if there is
    /// none. At most 64 streams are alive.
    pub fn view_at(&self, place: usize) -> Option<StreamView>
        ensures view { (c : Config) (st : State) → StandsFor c self.now st
            → result ≡ option_map (view_of st) (slice_get st.streams place) }
        ensures few { (c : Config) (st : State) → StandsFor c self.now st
            → length st.streams ≤ SESSIONS }
    {
        match self.table.stream(place) {
            None => None,
            Some(stream) => Some(self.shown(stream)),
        }
    }

    /// Returns the view of a stream. A view is large, so a caller that has the stream's row asks
    /// for it here.
    pub(crate) fn shown(&self, stream: &Stream) -> StreamView
        ensures view { result ≡ kept_view self.now stream.now }
    {
        StreamView {
            number: stream.number,
            tuning: stream.tuning,
            front: stream.front.unwrap_or(0),
            locked: self.is_locked(stream.front),
            pids: stream.pids.copy(),
            playing: self.is_playing(stream.number),
        }
    }

    // Returns whether the front end is tuned to a multiplex.
    #[tactic(auto, unfolding(satip_fronts::specs::FrontEnds::state_of, satip_fronts::specs::FrontEnds::mux_at))]
    fn is_locked(&self, front: Option<u16>) -> bool
        ensures locked { result ≡ is_some (option_and_then (mux_at self.now.fronts.rows) front) }
    {
        match front {
            None => false,
            Some(number) => match self.fronts.state(number) {
                None => false,
                Some(state) => state.mux.is_some(),
            },
        }
    }

    // Returns whether one of the stream's sessions plays.
    fn is_playing(&self, number: u16) -> bool
        ensures plays { result ≡ list_any (plays_in number) self.now.table.seats }
    {
        for place in 0..SESSIONS {
            let Some(session) = self.table.session(place) else {
                return false;
            };
            if is_player(session, number) {
                return true;
            }
        }
        false
    }
}

// Returns whether a session plays and is of the stream.
fn is_player(session: &Session, number: u16) -> bool
    ensures plays { result ≡ (session.now.stream == number && session.now.playing) }
{
    session.stream == number && session.playing
}
