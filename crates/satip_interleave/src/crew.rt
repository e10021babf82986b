//! Callers of the shared tunnel that are split off from one and joined into it again.
ghost use Rattle.std.specs.Prelude.{◌≡◌};
ghost use Rattle.satip_plain.specs.declared.events.Event.TheVariants.{Stop};
ghost use Rattle.satip_interleave.specs.declared.events.TunnelEvent.TheVariants.{Inner};
ghost use Rattle.satip_interleave.specs.Histories.{TunnelLegal};
ghost use Rattle.satip_turn.specs.Shown.{Keeps};

use crate::caller::TunnelCaller;
use crate::events::{TunnelAnswer, TunnelEvent};
use satip_base::{Out, Spent};
use satip_jobs::{Crew, ServeEnd};
use satip_plain::Event;
use std::sync::Wait;

impl<'a, R: Wait + Sync> Crew for TunnelCaller<'a, R> {
    type Asks = TunnelEvent;

    type Answers = TunnelAnswer;

    type Gear = ();

    ghost cell = { λ s. s.server.now };

    ghost pass = { λ s. s.pass };

    ghost gear = { λ _. tt };

    ghost legal = { λ c h. TunnelLegal c h };

    ghost is_stop = { λ e. e.event ≡ Inner Stop };

    ghost goes_on = { λ s t. (t.server.now ≡ s.server.now) × Keeps s.pass t.pass };

    fn split(&mut self, given: ()) -> Self {
        let () = given;
        let pass = self.server.split(&mut self.pass);
        TunnelCaller {
            rt: self.rt,
            server: self.server,
            pass,
        }
    }

    fn join(&mut self, other: Self) {
        let TunnelCaller {
            rt: _,
            server: _,
            pass,
        } = other;
        self.server.join(&mut self.pass, pass);
    }

    /// Submits the server's event `Stop`. Blocks.
    fn stop(&mut self, out: &mut Out) -> ServeEnd {
        let event = TunnelEvent::Inner(Event::Stop);
        match self.server.call(self.rt, &mut self.pass, &event, out) {
            Ok(_) => ServeEnd::Served,
            Err(Spent) => ServeEnd::HistoryFull,
        }
    }
}
