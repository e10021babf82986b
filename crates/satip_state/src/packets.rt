//! Packets of the front ends, and the work of their pumps.

ghost use Rattle.std.specs.Prelude.{◌≡◌, ◌+◌, ◌≤◌, ◌==◌, ◌&&◌, nat_lt, true, if◌then◌else◌};
ghost use Rattle.satip_plain.specs.Types.{Config};
ghost use Rattle.satip_plain.specs.State.{State};
ghost use Rattle.satip_plain.specs.Sending.{settle};
ghost use Rattle.satip_plain.specs.Steps.{deliver, is_current as is_current_in, on_ended, work as work_in};
ghost use Rattle.satip_plain.specs.declared.answers.Work.TheVariants.{Nothing};
ghost use Rattle.satip_state.specs.Standing.{StandsFor, Moved};
ghost use Rattle.satip_state.specs.Working.{work_of_told};

use crate::parts::Parts;
use satip_base::Out;
use satip_base::limits::{DATAGRAMS, SESSIONS};
use satip_plain::Work;
use satip_ts::Packet;

impl Parts {
    /// Gives a packet of a front end's tune number to each playing session of the front end's
    /// streams, if the stream selects the packet's PID. An RTSP session with seven packets sends
    /// them. An HTTP session whose queue is full ends. Does nothing if the front end serves no
    /// stream or has another tune number.
    pub fn packet(&mut self, front: u16, tune: u64, packet: &Packet, out: &mut Out)
        requires bytes { DATAGRAMS ≤ out.old.datagram_spare }
        requires count { SESSIONS ≤ out.old.count_spare }
        ensures moved { (c : Config) (st : State) → StandsFor c self.old st
            → Moved c self.new out.old out.new
            (if is_current_in st front tune then deliver front packet.now st else settle st) }
        ensures bytes_spare { out.old.datagram_spare ≤ out.new.datagram_spare + DATAGRAMS }
        ensures count_spare { out.old.count_spare ≤ out.new.count_spare + SESSIONS }
    {
        if !self.is_current(front, tune) {
            return;
        }
        let overrun = self.flow.packet(front, packet, self.clock, out);
        self.end_marked(overrun);
        // Gives the proof the invariant of the table that is left.
        let _ = &self.table;
    }

    /// Marks the recording that a front end plays for this tune number as ended. Does nothing if
    /// the front end serves no stream or has another tune number.
    pub fn ended(&mut self, front: u16, tune: u64)
        ensures ended { (c : Config) (st : State) → StandsFor c self.old st
            → StandsFor c self.new (on_ended front tune st).state }
    {
        let _current = self.fronts.end(front, tune);
    }

    /// Returns the next work of a front end's pump.
    pub fn work(&self, front: u16) -> Work
        ensures work { (c : Config) (st : State) → StandsFor c self.now st
            → result ≡ work_in st front }
    {
        if self.stopped {
            return Work::Stopping;
        }
        match self.fronts.state(front) {
            None => Work::Nothing,
            Some(state) => work_of(state.streams > 0, state.mux, state.tune, state.ended),
        }
    }

    /// Stops the server: the pumps of its front ends are to end.
    pub fn stop(&mut self)
        ensures stopped { (c : Config) (st : State) → StandsFor c self.old st
            → StandsFor c self.new (record st { stopped = true }) }
    {
        self.stopped = true;
    }

    // Returns whether the front end serves a stream and has this tune number.
    fn is_current(&self, front: u16, tune: u64) -> bool
        ensures current { (c : Config) (st : State) → StandsFor c self.now st
            → result ≡ is_current_in st front tune }
    {
        match self.fronts.state(front) {
            None => false,
            Some(state) => serves_tune(state.streams, state.tune, tune),
        }
    }
}

// Returns whether a front end that serves `streams` streams serves one, and has this tune number.
fn serves_tune(streams: u16, own: u64, tune: u64) -> bool
    ensures serves { result ≡ (own == tune && nat_lt 0 streams) }
{
    own == tune && streams > 0
}

// Returns the work of a front end's pump, from the front end's state.
fn work_of(serves: bool, mux: Option<u16>, tune: u64, ended: bool) -> Work
    ensures work { result ≡ (if serves then work_of_told mux tune ended else Nothing) }
{
    if !serves || ended {
        return Work::Nothing;
    }
    match mux {
        None => Work::Nothing,
        Some(mux) => Work::Tune { mux, tune },
    }
}
