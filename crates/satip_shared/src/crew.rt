//! Callers of the shared server that are split off from one and joined into it again.
ghost use Rattle.std.specs.Prelude.{◌≡◌};
ghost use Rattle.satip_plain.specs.declared.events.Event.TheVariants.{Stop};
ghost use Rattle.satip_plain.specs.Histories.{Legal};
ghost use Rattle.satip_shared.specs.Calling.{SameCaller};

use crate::caller::Caller;
use satip_base::{Out, Spent};
use satip_jobs::{Crew, ServeEnd};
use satip_plain::{Answer, Event};
use std::sync::Wait;

impl<'a, R: Wait + Sync> Crew for Caller<'a, R> {
    type Asks = Event;

    type Answers = Answer;

    type Gear = ();

    ghost cell = { λ s. s.server.now };

    ghost pass = { λ s. s.pass };

    ghost gear = { λ _. tt };

    ghost legal = { λ c h. Legal c h };

    ghost is_stop = { λ e. e.event ≡ Stop };

    ghost goes_on = { λ s t. SameCaller s.server.now s.pass t.server.now t.pass };

    fn split(&mut self, given: ()) -> Self {
        let () = given;
        let pass = self.server.split(&mut self.pass);
        Caller {
            rt: self.rt,
            server: self.server,
            pass,
        }
    }

    fn join(&mut self, other: Self) {
        let Caller {
            rt: _,
            server: _,
            pass,
        } = other;
        self.server.join(&mut self.pass, pass);
    }

    /// Executes the event `Stop`. Waits for the turn. Returns `HistoryFull` if the history has no
    /// room for it.
    fn stop(&mut self, out: &mut Out) -> ServeEnd {
        match self.server.call(self.rt, &mut self.pass, &Event::Stop, out) {
            Ok(_) => ServeEnd::Served,
            Err(Spent) => ServeEnd::HistoryFull,
        }
    }
}
