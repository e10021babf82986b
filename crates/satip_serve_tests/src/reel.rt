//! A store with a recording of one multiplex, which takes no memory.

ghost use Rattle.std.specs.Prelude.{◌≡◌};

use satip_base::{Failed, Source, Taken};
use satip_world::MuxStore;
use std::marker::Model;

/// So many transport packets of PID 16, one at a time.
#[derive(Drop)]
pub struct Reel {
    packets: u64,
    over: bool,
    taken: u64,
}

impl Source for Reel {
    ghost use Rattle.std.specs.Prelude.{[]};

    ghost tells = { ⊥ };

    ghost feed = { λ r. record { left = []; ended = r.over; faults = 0; taken = r.taken } };

    fn take(&mut self, buf: &mut [u8]) -> Taken {
        if self.over || self.packets == 0 || buf.len() < 188 || self.taken > u32::MAX as u64 {
            self.over = true;
            return Taken::End;
        }
        let (packet, _) = buf.split_at_mut(188);
        packet.fill(0);
        packet[0] = 0x47;
        packet[2] = 16;
        self.packets -= 1;
        self.taken += 188;
        Taken::Got(188)
    }
}

/// A store in which multiplex 1 has a recording of so many packets, and no other has one.
#[derive(Drop)]
pub struct ReelStore {
    packets: u64,
    faults: u64,
    lent: u64,
    peak: u64,
}

impl Model for ReelStore {
    ghost use Rattle.std.specs.Prelude.{[]};
    ghost use Rattle.satip_memory.specs.Shelves.{Shelf};

    ghost Value = { Shelf };

    ghost view = { λ s. record {
      recordings = [];
      faults = s.faults;
      lent = s.lent;
      peak = s.peak;
    } };
}

impl ReelStore {
    ghost use Rattle.satip_memory.specs.Shelves.{empty_shelf};

    pub fn new(packets: u64) -> ReelStore
        ensures empty { result ≡ empty_shelf }
    {
        ReelStore {
            packets,
            faults: 0,
            lent: 0,
            peak: 0,
        }
    }
}

impl MuxStore for ReelStore {
    ghost use Rattle.satip_memory.specs.Shelves.{store_view};

    type From = Reel;

    ghost shelf = { store_view };

    fn start(&mut self, mux: u16) -> Result<Reel, Failed> {
        if mux != 1 || self.lent == u64::MAX {
            self.faults = self.faults.saturating_add(1);
            return Err(Failed);
        }
        self.lent += 1;
        self.peak = self.peak.max(self.lent);
        Ok(Reel {
            packets: self.packets,
            over: false,
            taken: 0,
        })
    }

    fn back(&mut self, _from: Reel) {
        self.lent = self.lent.saturating_sub(1);
    }
}
