//! A server that counts its entries.

ghost use Rattle.std.specs.Prelude.{◌≡◌, ◌+◌, IfOk};
ghost use Rattle.satip_plain.specs.declared.events.Event.TheVariants.{Request as Asked, Tick, Packet as PacketCame};
ghost use Rattle.satip_plain.specs.Histories.{opening};
ghost use Rattle.satip_core.specs.Serving.{Stands};
ghost use Rattle.satip_stress.specs.Making.{stress_setting};
ghost use Rattle.satip_stress.specs.Counted.{none_counted, HasRoom, IsBounded};
ghost use Rattle.satip_stress.specs.Running.{Makes};

use crate::counting::Counts;
use crate::making::make_config;
use satip_base::{Draw, Out, Peer, Want};
use satip_core::Server;
use satip_plain::Answer;
use satip_rtsp::Request;
use satip_ts::Packet;
use std::alloc::Global;

/// The server of a run, and the counts of its entries so far.
#[derive(Drop)]
pub(crate) struct Counted {
    pub(crate) server: Server,
    pub(crate) counts: Counts,
    out: Out,
}

impl Counted {
    /// Creates the server before any event. Takes all memory of the run.
    #[tactic(auto, unfolding(crate::specs::Making::stress_setting))]
    pub(crate) fn make(alloc: Global) -> Result<Counted, Want>
        ensures setting { IfOk result (λ counted. counted.server.setting ≡ stress_setting) }
        ensures opening { IfOk result (λ counted. Stands counted.server (opening stress_setting)) }
        ensures none { IfOk result (λ counted. counted.counts ≡ none_counted) }
    {
        let config = make_config(alloc)?;
        Ok(Counted {
            out: Out::make(alloc)?,
            counts: Counts::none(),
            server: Server::make(alloc, config, 0)?,
        })
    }

    /// Executes an RTSP request, and counts its entry.
    pub(crate) fn request(&mut self, peer: Peer, draw: Draw, request: &Request)
        requires room { HasRoom self.old.counts }
        ensures setting { self.new.server.setting ≡ self.old.server.setting }
        ensures made { Makes self.old (Asked peer draw request.now) self.new }
        ensures events { self.new.counts.events ≡ self.old.counts.events + 1 }
        ensures bounded { IsBounded self.new.counts }
    {
        let replied = self.server.request(peer, draw, request, &mut self.out);
        self.counts.add(Answer::Replied(replied), &self.out);
    }

    /// Executes a tick, and counts its entry.
    pub(crate) fn tick(&mut self, now: u64)
        requires room { HasRoom self.old.counts }
        ensures setting { self.new.server.setting ≡ self.old.server.setting }
        ensures made { Makes self.old (Tick now) self.new }
        ensures events { self.new.counts.events ≡ self.old.counts.events + 1 }
        ensures bounded { IsBounded self.new.counts }
    {
        let beat = self.server.tick(now, &mut self.out);
        self.counts.add(Answer::Beat(beat), &self.out);
    }

    /// Executes a packet of front end 1 for its tune number 1, and counts its entry.
    pub(crate) fn packet(&mut self, packet: &Packet)
        requires room { HasRoom self.old.counts }
        ensures setting { self.new.server.setting ≡ self.old.server.setting }
        ensures made { Makes self.old (PacketCame 1 1 packet.now) self.new }
        ensures events { self.new.counts.events ≡ self.old.counts.events + 1 }
        ensures bounded { IsBounded self.new.counts }
    {
        let work = self.server.packet(1, 1, packet, &mut self.out);
        self.counts.add(Answer::Work(work), &self.out);
    }
}
