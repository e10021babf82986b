//! The changes that a request makes to a session and to a stream.

ghost use Rattle.std.specs.Prelude.{true};
ghost use Rattle.satip_plain.specs.Types.{Config};
ghost use Rattle.satip_plain.specs.State.{State};
ghost use Rattle.satip_plain.specs.Streams.{change_stream};
ghost use Rattle.satip_plain.specs.Steps.{change_session, hear as heard_in};
ghost use Rattle.satip_state.specs.Standing.{StandsFor};

use crate::parts::Parts;
use crate::subscribing::{known_front, subscribe};
use satip_base::{Address, Peer, Ports, SessionId};
use satip_pids::PidSet;

impl Parts {
    /// Sets the session's last activity to the clock's time, and its end to one timeout later.
    /// Changes nothing if the session isn't alive.
    pub fn hear(&mut self, id: SessionId)
        ensures heard { (c : Config) (st : State) → StandsFor c self.old st
            → StandsFor c self.new (heard_in id st) }
    {
        let Some(slot) = self.table.slot(id) else {
            return;
        };
        let end = self.clock.saturating_add(self.timeout as u64 * 1000);
        self.table.heard(id, self.clock);
        self.timer.set(slot, end);
    }

    /// Sets the client and the ports that the session's datagrams go to. Changes nothing if the
    /// session isn't alive.
    pub fn move_to(&mut self, id: SessionId, peer: Peer, ports: Ports)
        ensures moved { (c : Config) (st : State) → StandsFor c self.old st
            → StandsFor c self.new (change_session id (λ s. record s { peer = peer; ports = ports })
            st) }
    {
        let Some(slot) = self.table.slot(id) else {
            return;
        };
        self.table.move_to(id, peer, ports);
        self.flow.address(
            slot,
            Address {
                ip: peer.ip,
                port: ports.rtp,
            },
        );
    }

    /// Marks the session as playing. Changes nothing if the session isn't alive.
    pub fn play(&mut self, id: SessionId)
        ensures plays { (c : Config) (st : State) → StandsFor c self.old st
            → StandsFor c self.new (change_session id (λ s. record s { playing = true }) st) }
    {
        let Some(slot) = self.table.slot(id) else {
            return;
        };
        let Some(session) = self.table.find(id) else {
            return;
        };
        if session.playing {
            return;
        }
        let session = *session;
        let Some(stream) = self.table.find_stream(session.stream) else {
            return;
        };
        subscribe(&mut self.flow, slot, &session, stream);
        self.table.play(id);
    }

    /// Sets the PIDs that the stream selects. Changes nothing if the stream isn't alive.
    pub fn change_pids(&mut self, number: u16, pids: &PidSet)
        ensures changed { (c : Config) (st : State) → StandsFor c self.old st
            → StandsFor c self.new (change_stream number (λ t. record t { pids = pids.now }) st) }
    {
        let Some(stream) = self.table.find_stream(number) else {
            return;
        };
        let (tuning, front) = (stream.tuning, stream.front);
        self.table.change(number, tuning, front, pids.copy());
        self.flow.change(number, known_front(front), pids);
    }
}
