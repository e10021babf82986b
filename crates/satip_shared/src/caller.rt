//! One caller of the shared server as a service.
ghost use Rattle.std.specs.Prelude.{◌≡◌, ◌<◌, ◌^◌, length};
ghost use Rattle.satip_plain.specs.Histories.{Legal};
ghost use Rattle.satip_turn.specs.Shown.{IsOf};
ghost use Rattle.satip_plain.specs.Single.{legal_prop};
ghost use Rattle.satip_shared.specs.Single.{of_prop};

use crate::feeding::Feeding;
use crate::server::{SharedPass, SharedServer};
use satip_base::{Out, Spent};
use satip_plain::{Answer, Event, Lot, Service, ServiceFault};
use std::sync::Wait;

/// One caller of the shared server. Its pass is of its server's cell. Each call waits for the turn.
/// It never returns `Want`.
#[derive(Drop)]
pub struct Caller<'a, R: Wait + Sync> {
    pub rt: &'a R,
    pub server: &'a SharedServer,
    pub pass: SharedPass,
    pub ghost of: { IsOf pass server.now } by { of_prop pass server.now },
    pub ghost lawful: { Legal server.now.setting pass.seen } by { legal_prop
        server.now.setting pass.seen },
    pub ghost short: { length pass.seen < 2 ^ 64 },
}

impl<'a, R: Wait + Sync> Service for Caller<'a, R> {
    type Room = Event;

    ghost use Rattle.std.specs.Prelude.{false, refl};
    ghost use Rattle.satip_shared.specs.Calling.{known_by, SameCaller, same_caller, same_caller_then, same_caller_setting};

    ghost setting = { λ s. s.server.now.setting };

    ghost legal = { λ c h. Legal c h };

    ghost known = { λ s. known_by s.pass };

    ghost may_want = { λ _. false };

    ghost same = { λ s t. SameCaller s.server.now s.pass t.server.now t.pass };

    ghost is_legal = { λ s. s.lawful };

    ghost is_short = { λ s. s.short };

    ghost same_self = { λ s. same_caller s.server.now s.pass };

    ghost same_then = { λ r s t a b. same_caller_then r.server.now r.pass s.server.now s.pass
        t.server.now t.pass a b };

    ghost same_setting = { λ s t a. same_caller_setting s.server.now s.pass t.server.now t.pass a };

    ghost same_want = { λ _ _ _. refl };

    fn room() -> Event {
        Event::Stop
    }

    fn call(&mut self, event: &Event, out: &mut Out) -> Result<Answer, ServiceFault> {
        match self.server.call(self.rt, &mut self.pass, event, out) {
            Ok(answer) => Ok(answer),
            Err(Spent) => Err(ServiceFault::Spent),
        }
    }

    fn burst<L: Lot>(
        &mut self,
        lot: &mut L,
        room: &mut Event,
        out: &mut Out,
    ) -> Result<(), ServiceFault> {
        let mut feeding = Feeding { lot };
        let burst = self
            .server
            .burst(self.rt, &mut self.pass, &mut feeding, room, out);
        if burst.spent {
            return Err(ServiceFault::Spent);
        }
        Ok(())
    }
}
