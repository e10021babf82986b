//! The server of a talk. It has no front ends, and numbers the messages that it answers.

ghost use Rattle.std.specs.Prelude.{[], ◌∷◌, List, ◌++◌, IfOk};
ghost use Rattle.satip_rtsp.specs.declared.requests.Request.{Request as Asked};
ghost use Rattle.satip_talk_command.specs.Talking.{HasAnswered, next_reply};
ghost use Rattle.satip_talk_command.specs.Gathering.{Gathers};

use crate::gathered::Gathered;
use satip_base::{Draw, Out, Peer, Put, Sink, Want};
use satip_config::Config;
use satip_core::Server;
use satip_rtsp::Request;
use std::alloc::Global;

// The address 127.0.0.1.
const LOCALHOST: u32 = 2130706433;

/// A server with no front ends, and the count of messages that it answered, modulo 2^32.
#[derive(Drop)]
pub(crate) struct Talker {
    pub(crate) server: Server,
    pub(crate) count: u32,
    out: Out,
}

impl Talker {
    /// Creates a server before any request. Takes all memory.
    pub(crate) fn make(alloc: Global) -> Result<Talker, Want>
        ensures new { IfOk result (λ talker. HasAnswered talker []) }
    {
        let config = Config {
            address: LOCALHOST,
            rtsp_port: 554,
            http_port: 8875,
            timeout: 60,
            workers: 8,
            fronts: Vec::new(alloc),
            muxes: Vec::new(alloc),
            files: Vec::new(alloc),
        };
        Ok(Talker {
            out: Out::make(alloc)?,
            count: 0,
            server: Server::make(alloc, config, 0)?,
        })
    }

    /// Answers the request of the next message, and gathers the reply.
    pub(crate) fn reply<O: Sink>(
        &mut self,
        request: &Request,
        gathered: &mut Gathered,
        output: &mut O,
    ) -> Put
        ensures next { (requests : List Asked) → HasAnswered self.old requests
            → HasAnswered self.new (requests ++ request.now ∷ []) }
        ensures gathers { (requests : List Asked) → HasAnswered self.old requests → Gathers O.tells
            (O.drain output.old) (O.drain output.new)
            gathered.old gathered.new (next_reply requests request.now) result }
    {
        self.count = self.count.wrapping_add(1);
        let draw = Draw {
            word: self.count,
            ssrc: self.count,
            first: 0,
        };
        self.server
            .request(Peer { ip: LOCALHOST }, draw, request, &mut self.out);
        gathered.gather(self.out.reply(), output)
    }
}
