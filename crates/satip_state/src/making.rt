//! The creation of the parts, and of sessions.

ghost use Rattle.std.specs.Prelude.{◌≡◌, ◌≤◌, ◌<◌, ◌||◌, ◌^◌, false, None, Some, is_none, if◌then◌else◌, vec_len, IfOk};
ghost use Rattle.satip_fronts.specs.FrontEnds.{IsNumbered};
ghost use Rattle.satip_flow.specs.Subscriptions.{IsFrontOrNone};
ghost use Rattle.satip_plain.specs.declared.setting.Setting.{Setting};
ghost use Rattle.satip_plain.specs.Types.{Config};
ghost use Rattle.satip_plain.specs.State.{State, stream_of};
ghost use Rattle.satip_plain.specs.Refusals.{is_full};
ghost use Rattle.satip_plain.specs.Steps.{capped, found as founded, join as joined, least_free, next_id};
ghost use Rattle.satip_plain.specs.Histories.{opening};
ghost use Rattle.satip_state.specs.Asking.{IsUntuned};
ghost use Rattle.satip_state.specs.Beginning.{Begins, with_queue};
ghost use Rattle.satip_state.specs.Standing.{StandsFor};

use crate::parts::Parts;
use crate::subscribing::subscribe;
use satip_base::limits::SESSIONS;
use satip_base::{Draw, Peer, Ports, SessionId, Want};
use satip_flow::Flow;
use satip_fronts::Fronts;
use satip_rtcp::KeptTexts;
use satip_table::{NewSession, Session, Stream, Table};
use satip_timer::Timer;
use satip_tune::{Front, Mux};
use std::alloc::Global;

/// The last moment, in milliseconds of Unix time; later ones count as this one.
pub(crate) const LAST_MOMENT: u64 = 281474976710655;

/// Returns the moment, at most the last one.
fn capped_moment(moment: u64) -> u64
    ensures capped { result ≡ capped moment }
{
    if moment < LAST_MOMENT {
        moment
    } else {
        LAST_MOMENT
    }
}

impl Parts {
    /// Creates the parts as they are before the first event: no session, and front ends that serve
    /// no stream. `start` is the clock's first time, in milliseconds of Unix time. A session ends
    /// after `timeout` seconds without activity. Allocates all memory; returns `Want` if out of
    /// memory.
    pub fn make(
        alloc: Global,
        fronts: Vec<Front>,
        muxes: Vec<Mux>,
        timeout: u32,
        start: u64,
    ) -> Result<Parts, Want>
        requires few { vec_len fronts ≤ 16 }
        requires numbered { IsNumbered 1 fronts.items }
        requires received { vec_len muxes ≤ 256 }
        ensures opening { IfOk result (λ parts. (c : Setting) → c.config.fronts ≡ fronts.items
            → c.config.muxes ≡ muxes.items → c.config.timeout ≡ timeout → c.start ≡ start
            → StandsFor c.config parts (opening c)) }
    {
        let table = Table::make(alloc)?;
        let timer = Timer::make(alloc)?;
        let texts = KeptTexts::make(alloc)?;
        let flow = Flow::make(alloc)?;
        Ok(Parts {
            clock: capped_moment(start),
            stopped: false,
            timeout,
            table,
            timer,
            fronts: Fronts::make(fronts, muxes),
            flow,
            texts,
        })
    }

    /// Creates a session with a new stream that it owns; returns the session's id and the stream's
    /// number. Returns None, and changes nothing, if no session can be created.
    pub fn found(
        &mut self,
        http: bool,
        peer: Peer,
        draw: Draw,
        ports: Ports,
    ) -> Option<(SessionId, u16)>
        ensures made { (c : Config) (st : State) → StandsFor c self.old st
            → result ≡ (if is_full st then None else Some
            (next_id st draw, least_free st.streams)) }
        ensures founded { (c : Config) (st : State) → StandsFor c self.old st
            → StandsFor c self.new (if is_full st then st else founded http peer draw ports st) }
        ensures untuned { (c : Config) (st : State) → StandsFor c self.old st → is_full st ≡ false
            → IsUntuned (founded http peer draw ports st) (least_free st.streams) }
    {
        if self.table.full() {
            return None;
        }
        let (id, number) = self.table.found(NewSession {
            http,
            peer,
            ports,
            draw,
            heard: self.clock,
        });
        self.begin(id);
        Some((id, number))
    }

    /// Creates an RTSP session that joins a stream; returns the session's id. Returns None, and
    /// changes nothing, if no session can be created or the stream isn't alive.
    pub fn join(&mut self, peer: Peer, draw: Draw, ports: Ports, number: u16) -> Option<SessionId>
        ensures made { (c : Config) (st : State) → StandsFor c self.old st
            → result ≡ (if is_full st || is_none (stream_of st number) then None else Some
            (next_id st draw)) }
        ensures joined { (c : Config) (st : State) → StandsFor c self.old st
            → StandsFor c self.new
            (if is_full st || is_none (stream_of st number) then st
            else joined false peer draw ports number st) }
    {
        if self.table.full() {
            return None;
        }
        let Some(_stream) = self.table.find_stream(number) else {
            return None;
        };
        let new = NewSession {
            http: false,
            peer,
            ports,
            draw,
            heard: self.clock,
        };
        let id = self.table.join(new, number);
        self.begin(id);
        Some(id)
    }

    /// Sets the end of the new session to one timeout from now. An HTTP session gets packets from
    /// now on.
    fn begin(&mut self, id: SessionId)
        ensures begun { Begins id self.old self.new }
        ensures short { self.old.timeout < 2 ^ 32 }
    {
        let Some(slot) = self.table.slot(id) else {
            return;
        };
        let Some(session) = self.table.find(id) else {
            return;
        };
        let Some(stream) = self.table.find_stream(session.stream) else {
            return;
        };
        subscribe_http(&mut self.flow, slot, session, stream);
        let end = self.clock.saturating_add(self.timeout as u64 * 1000);
        self.timer.set(slot, end);
    }
}

/// Subscribes the session of this slot to the packets of its stream, if it is an HTTP session.
#[tactic(auto, unfolding(crate::specs::Beginning::with_queue))]
fn subscribe_http(flow: &mut Flow, slot: u16, session: &Session, stream: &Stream)
    requires slot { slot < SESSIONS }
    ensures added { IsFrontOrNone stream.now.front
        → flow.new ≡ with_queue slot session.now stream.now flow.old }
{
    if session.http {
        subscribe(flow, slot, session, stream);
    }
}
