//! The tunnel as a served value.

use crate::events::{TunnelAnswer, TunnelEvent};
use crate::one_tunnel::Tunnel;
use satip_base::{Out, Served};
use satip_plain::Setting;

impl Served for Tunnel {
    ghost use Rattle.satip_interleave.specs.Histories.{TunnelLegal};
    ghost use Rattle.satip_interleave.specs.Standing.{Stands, stands_legal};

    type Event = TunnelEvent;

    type Out = Out;

    type Answer = TunnelAnswer;

    type Setting = Setting;

    ghost setting = { λ t. t.server.setting };

    ghost legal = { λ c h. TunnelLegal c h };

    ghost stands_for = { λ t h. Stands t h };

    ghost is_legal = { λ t h stands. stands_legal t h stands };

    fn serve(&mut self, event: &TunnelEvent, out: &mut Out) -> TunnelAnswer {
        self.event(event, out)
    }
}
