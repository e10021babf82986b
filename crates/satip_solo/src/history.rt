//! A server and the entries of its history.
ghost use Rattle.std.specs.Prelude.{◌≡◌, ◌<◌, ◌^◌, [], length, MatchResult};
ghost use Rattle.satip_plain.specs.Histories.{Legal};
ghost use Rattle.satip_core.specs.Serving.{StandsAfter};
ghost use Rattle.satip_solo.specs.Log.{Goes, new_log};

use crate::entries::{Entries, enter, reserve, stop_where_due};
use satip_base::Out;
use satip_core::Server;
use satip_plain::{Answer, Event, ServiceFault};
use std::alloc::Global;
use std::marker::Model;

/// A server after the entries of its history, and the number of the call before which the Stop is
/// due.
#[derive(Drop)]
pub(crate) struct History {
    alloc: Global,
    server: Server,
    entries: Entries,
    stop: Option<u64>,
}

impl Model for History {
    ghost use Rattle.satip_solo.specs.Log.{Log};
    ghost use Rattle.satip_solo.specs.Inside.{IsSound};

    ghost Value = { Log };

    ghost view = { λ s. record {
      setting = s.server.setting;
      entries = s.entries.items;
      stop = s.stop;
    } };

    ghost invariant = { λ s. IsSound s.server s.entries.items s.stop };
}

impl History {
    /// Creates the empty history.
    pub(crate) fn new(alloc: Global, server: Server, stop: Option<u64>) -> History
        requires fresh { StandsAfter server [] }
        ensures new { result ≡ new_log server.setting stop }
        ensures legal { Legal result.setting result.entries }
    {
        History {
            alloc,
            server,
            entries: Vec::new(alloc),
            stop,
        }
    }

    /// Returns the entries, oldest first.
    pub(crate) fn entries(&self) -> &Entries
        ensures entries { result.now.items ≡ self.now.entries }
    {
        &self.entries
    }

    /// Executes an event of caller 0, and keeps its entry. The memory for it is taken first.
    pub(crate) fn make(&mut self, event: &Event, out: &mut Out) -> Result<Answer, ServiceFault>
        ensures made { MatchResult result
            (λ answer. Goes self.old event.now answer out.new self.new)
            (λ fault. (fault ≡ ServiceFault.Want) × (self.new ≡ self.old)) }
        ensures legal { Legal self.new.setting self.new.entries }
        ensures short { length self.new.entries < 2 ^ 64 }
    {
        let Some(room) = reserve(self.alloc, &mut self.entries) else {
            return Err(ServiceFault::Want);
        };
        if !stop_where_due(
            self.alloc,
            &mut self.server,
            &mut self.entries,
            &mut self.stop,
        ) {
            return Err(ServiceFault::Want);
        }
        Ok(enter(&mut self.server, &mut self.entries, event, out, room))
    }
}
