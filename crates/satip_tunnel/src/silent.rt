//! An outlet that drops datagrams.

ghost use Rattle.std.specs.Prelude.{◌≡◌, false};
ghost use Rattle.satip_tunnel.specs.Silences.{silence};

use satip_base::{Address, Put};
use satip_world::Outlet;

/// An outlet that sends nothing: it drops each datagram, and its contract exposes nothing of them.
#[derive(Drop)]
pub struct Silent {
    pub(crate) held: bool,
}

impl Silent {
    /// Creates an outlet whose lock is free.
    pub fn make() -> Silent
        ensures free { result.held ≡ false }
    {
        Silent { held: false }
    }
}

impl Outlet for Silent {
    ghost tells = { ⊥ };

    ghost outbox = { λ s. silence s.held };

    fn lock(&mut self) {
        self.held = true;
    }

    fn unlock(&mut self) {
        self.held = false;
    }

    fn send(&mut self, _to: Address, _bytes: &[u8]) -> Put {
        Put::Whole
    }
}
