//! The server as a served value, whose histories are the plain server's.

use crate::Server;
use satip_base::{Out, Served};
use satip_plain::{Answer, Event, Setting, known_event};

impl Served for Server {
    ghost use Rattle.satip_plain.specs.Histories.{Legal};
    ghost use Rattle.satip_core.specs.Serving.{StandsAfter};

    type Event = Event;

    type Out = Out;

    type Answer = Answer;

    type Setting = Setting;

    ghost setting = { λ s. s.setting };

    ghost legal = { λ c h. Legal c h };

    ghost stands_for = { λ s h. StandsAfter s h };

    ghost is_legal = { λ s h stands. stands.lawful };

    fn serve(&mut self, event: &Event, out: &mut Out) -> Answer {
        known_event(event);
        self.event(event, out)
    }
}
