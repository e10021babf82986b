//! The server and its events.

ghost use Rattle.std.specs.Prelude.{◌≡◌, ◌≤◌, [], None, Some, false, length, IfOk, if◌then◌else◌};
ghost use Rattle.satip_fronts.specs.FrontEnds.{IsNumbered};
ghost use Rattle.satip_plain.specs.declared.answers.Answer.TheVariants.{Replied as AnswerReplied, Get as AnswerGet, Beat as AnswerBeat, Work as AnswerWork, Pulled as AnswerPulled, Closed as AnswerClosed};
ghost use Rattle.satip_plain.specs.declared.events.Event.TheVariants.{Request as Asked, Get as Got, Tick, Packet as PacketCame, Ended, Ask, Pull, Close, Stop};
ghost use Rattle.satip_plain.specs.State.{Session as PlainSession, State, held, http_session};
ghost use Rattle.satip_plain.specs.Refusals.{Refused as PlainRefused, decide as decision, decide_get as get_decision};
ghost use Rattle.satip_plain.specs.Steps.{hear, heard_by, is_current, on_tick};
ghost use Rattle.satip_plain.specs.Histories.{opening};
ghost use Rattle.satip_core.specs.Serving.{Rests, Stands, StandsAfter, Steps};
ghost use Rattle.satip_base.specs.Output.{empty};
ghost use Rattle.satip_plain.specs.declared.answers.Beat.TheVariants.{Going, Stopping};
ghost use Rattle.satip_state.specs.Standing.{StandsFor};
ghost use Rattle.satip_core.specs.Doing.{Did};

use crate::requests::{answer_get, answer_request};
use satip_base::{Draw, Out, Peer, SessionId, Want};
use satip_http::HttpRequest;
use satip_pids::PidSet;
use satip_plain::{
    Answer, Beat, Closed, Event, GetAnswer, Pulled, Replied, Setting, Work, empty_only_hears,
    gone_changes_nothing, known_setting, refused_changes_nothing, refused_get_changes_nothing,
    stale_changes_nothing,
};
use satip_rtsp::Request;
use satip_state::Parts;
use satip_ts::Packet;
use satip_tune::Config;
use std::alloc::Global;
use std::marker::Model;

/// The server of one thread. A contract sees its setting and the contents of its parts; each event
/// is a step of the plain server.
#[derive(Drop)]
pub struct Server {
    setting: Setting,
    parts: Parts,
    // The PIDs that the request at hand asks for: a set is large, and kept to be used again.
    asked: PidSet,
}

impl Model for Server {
    ghost use Rattle.satip_core.specs.Held.{Held};
    ghost use Rattle.satip_core.specs.Doing.{Standing};

    ghost Value = { Held };

    ghost view = { λ s. record { setting = s.setting; kept = s.parts } };

    ghost invariant = { λ s. Standing s.setting.config s.parts };
}

impl Server {
    /// Creates the server before its first event. `start` is its clock's time, in milliseconds of
    /// Unix time. Allocates all memory; returns `Want` if out of memory.
    pub fn make(alloc: Global, config: Config, start: u64) -> Result<Server, Want>
        requires few { length config.fronts ≤ 16 }
        requires numbered { IsNumbered 1 config.fronts }
        requires received { length config.muxes ≤ 256 }
        ensures setting { IfOk result (λ server. server.setting
            ≡ record { config = config; start = start }) }
        ensures opening { IfOk result (λ server. Stands server
            (opening (record { config = config; start = start }))) }
        ensures history { IfOk result (λ server. StandsAfter server []) }
    {
        let Ok(fronts) = config.fronts.clone() else {
            return Err(Want);
        };
        let Ok(muxes) = config.muxes.clone() else {
            return Err(Want);
        };
        let parts = Parts::make(alloc, fronts, muxes, config.timeout, start)?;
        let setting = Setting { config, start };
        known_setting(&setting);
        Ok(Server {
            setting,
            parts,
            asked: PidSet::new(),
        })
    }

    /// Answers an RTSP request. Clears `out` first, and then writes the reply and the datagrams to
    /// it. A refused request changes nothing but its session's last activity, and that only if the
    /// message itself is well-formed.
    pub fn request(&mut self, peer: Peer, draw: Draw, request: &Request, out: &mut Out) -> Replied
        ensures setting { self.new.setting ≡ self.old.setting }
        ensures steps { Steps self.old (Asked peer draw request.now) self.new (AnswerReplied result)
            out.new }
        ensures refused { (st : State) (refused : PlainRefused) → Stands self.old st
            → decision self.old.setting.config st request.now ≡ Some refused
            → Rests self.new out.new (heard_by request.now st) }
    {
        refused_changes_nothing();
        out.clear();
        answer_request(
            &self.setting.config,
            &mut self.parts,
            peer,
            draw,
            request,
            &mut self.asked,
            out,
        )
    }

    /// Answers an HTTP request. Clears `out` first, and then writes the head of the reply and the
    /// datagrams to it. A refused request changes nothing.
    pub fn get(&mut self, peer: Peer, draw: Draw, request: &HttpRequest, out: &mut Out) -> GetAnswer
        ensures setting { self.new.setting ≡ self.old.setting }
        ensures steps { Steps self.old (Got peer draw request.now) self.new (AnswerGet result)
            out.new }
        ensures refused { (st : State) (refused : PlainRefused) → Stands self.old st
            → get_decision self.old.setting.config st request.now ≡ Some refused
            → Rests self.new out.new st }
    {
        refused_get_changes_nothing();
        out.clear();
        answer_get(
            &self.setting.config,
            &mut self.parts,
            peer,
            draw,
            request,
            &mut self.asked,
            out,
        )
    }

    /// Advances the clock to `now`, in milliseconds of Unix time. Clears `out` first, and then
    /// writes the datagrams to it: held packets and reports.
    pub fn tick(&mut self, now: u64, out: &mut Out) -> Beat
        ensures setting { self.new.setting ≡ self.old.setting }
        ensures steps { Steps self.old (Tick now) self.new (AnswerBeat result) out.new }
    {
        out.clear();
        tick(&self.setting.config, &mut self.parts, now, out)
    }

    /// Delivers a packet of a front end's tune number; returns the next work of its pump. Clears
    /// `out` first, and then writes the datagrams to it. A stale packet changes nothing.
    pub fn packet(&mut self, front: u16, tune: u64, packet: &Packet, out: &mut Out) -> Work
        ensures setting { self.new.setting ≡ self.old.setting }
        ensures steps { Steps self.old (PacketCame front tune packet.now) self.new
            (AnswerWork result) out.new }
        ensures stale { (st : State) → Stands self.old st → is_current st front tune ≡ false
            → Rests self.new out.new st }
    {
        stale_changes_nothing();
        out.clear();
        self.parts.packet(front, tune, packet, out);
        self.parts.work(front)
    }

    /// Marks a tune number's recording as ended; returns the pump's next work. Clears `out`.
    pub fn ended(&mut self, front: u16, tune: u64, out: &mut Out) -> Work
        ensures setting { self.new.setting ≡ self.old.setting }
        ensures steps { Steps self.old (Ended front tune) self.new (AnswerWork result) out.new }
    {
        out.clear();
        self.parts.ended(front, tune);
        self.parts.work(front)
    }

    /// Returns the next work of a front end's pump. Clears `out`.
    pub fn ask(&mut self, front: u16, out: &mut Out) -> Work
        ensures setting { self.new.setting ≡ self.old.setting }
        ensures steps { Steps self.old (Ask front) self.new (AnswerWork result) out.new }
    {
        out.clear();
        self.parts.work(front)
    }

    /// Moves the first packets of an HTTP session's queue, at most 64, to the reply. Clears `out`
    /// first. Changes nothing if there is no such HTTP session. If its queue is empty, changes only
    /// its last activity.
    pub fn pull(&mut self, session: SessionId, out: &mut Out) -> Pulled
        ensures setting { self.new.setting ≡ self.old.setting }
        ensures steps { Steps self.old (Pull session) self.new (AnswerPulled result) out.new }
        ensures gone { (st : State) → Stands self.old st → http_session st session ≡ None
            → Rests self.new out.new st }
        ensures empty { (st : State) (s : PlainSession) → Stands self.old st
            → http_session st session ≡ Some s
            → held s ≡ [] → Rests self.new out.new (hear s.id st) }
    {
        gone_changes_nothing();
        empty_only_hears();
        out.clear();
        self.parts.pull(session, out)
    }

    /// Ends an HTTP session. Clears `out`. Changes nothing if there is no such HTTP session.
    pub fn close(&mut self, session: SessionId, out: &mut Out) -> Closed
        ensures setting { self.new.setting ≡ self.old.setting }
        ensures steps { Steps self.old (Close session) self.new (AnswerClosed result) out.new }
        ensures gone { (st : State) → Stands self.old st → http_session st session ≡ None
            → Rests self.new out.new st }
    {
        gone_changes_nothing();
        out.clear();
        self.parts.close(session, out)
    }

    /// Stops the server. Clears `out`.
    pub fn stop(&mut self, out: &mut Out) -> Beat
        ensures setting { self.new.setting ≡ self.old.setting }
        ensures steps { Steps self.old Stop self.new (AnswerBeat result) out.new }
    {
        out.clear();
        self.parts.stop();
        Beat::Stopping
    }

    /// Executes any event, by its kind.
    pub fn event(&mut self, event: &Event, out: &mut Out) -> Answer
        ensures setting { self.new.setting ≡ self.old.setting }
        ensures steps { Steps self.old event.now self.new result out.new }
    {
        match event {
            Event::Request {
                peer,
                draw,
                request,
            } => Answer::Replied(self.request(*peer, *draw, request, out)),
            Event::Get {
                peer,
                draw,
                request,
            } => Answer::Get(self.get(*peer, *draw, request, out)),
            Event::Tick { now } => Answer::Beat(self.tick(*now, out)),
            Event::Packet {
                front,
                tune,
                packet,
            } => Answer::Work(self.packet(*front, *tune, packet, out)),
            Event::Ended { front, tune } => Answer::Work(self.ended(*front, *tune, out)),
            Event::Ask { front } => Answer::Work(self.ask(*front, out)),
            Event::Pull { session } => Answer::Pulled(self.pull(*session, out)),
            Event::Close { session } => Answer::Closed(self.close(*session, out)),
            Event::Stop => Answer::Beat(self.stop(out)),
        }
    }
}

// Returns whether the server goes on.
fn beat_of(stopped: bool) -> Beat
    ensures beat { result ≡ (if stopped then Stopping else Going) }
{
    if stopped { Beat::Stopping } else { Beat::Going }
}

// Advances the clock: held packets leave, sessions without activity end, and reports leave.
fn tick(config: &Config, parts: &mut Parts, now: u64, out: &mut Out) -> Beat
    requires cleared { out.old ≡ empty }
    ensures did { (st : State) → StandsFor config.now parts.old st
        → Did config.now parts.new (AnswerBeat result) out.new (on_tick config.now now st) }
{
    let stopped = parts.is_stopped();
    parts.tick(now, config.address, out);
    beat_of(stopped)
}
