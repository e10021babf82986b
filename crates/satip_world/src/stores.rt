//! Stores: the recordings of the multiplexes.

ghost use Rattle.std.specs.Prelude.{◌≡◌, ◌≢◌, ℕ, ◌+◌, ◌-◌, max, List, Option, IfOk, OnErr};
ghost use Rattle.satip_world.specs.Counts.{Rises};

use satip_base::{Failed, Source};

/// A recording of transport packets for each multiplex, by its number from 1.
pub trait MuxStore {
    ghost use Rattle.satip_world.specs.Recordings.{IsStarted, StoreView};

    /// The type of the sources from which a recording is read.
    type From: Source + Drop + Send;

    // The recording of each multiplex, if the store exposes it; the count of failed starts and of
    // sources that came back after a fault; the count of sources that are lent, started and not
    // taken back; and the highest such count.
    ghost shelf: { Self → StoreView };

    /// Opens the recording of a multiplex, from its beginning.
    fn start(&mut self, mux: u16) -> Result<Self::From, Failed>
        ensures recordings { (shelf self.new).recording ≡ (shelf self.old).recording }
        ensures started { IfOk result (λ from. IsStarted Self.From.tells
            (Self.From.feed from)
            ((shelf self.old).recording mux)) }
        ensures no_fault { IfOk result (λ _. (shelf self.new).faults ≡ (shelf self.old).faults) }
        ensures failed { OnErr result (Rises (shelf self.old).faults (shelf self.new).faults) }
        ensures lent { IfOk result (λ _. (shelf self.new).lent ≡ (shelf self.old).lent + 1) }
        ensures none_lent { OnErr result ((shelf self.new).lent ≡ (shelf self.old).lent) }
        ensures peak { IfOk result (λ _. (shelf self.new).peak
            ≡ max (shelf self.old).peak (shelf self.new).lent) }
        ensures same_peak { OnErr result ((shelf self.new).peak ≡ (shelf self.old).peak) };

    /// Takes a source back, whether or not it was read to its end. A source that had a fault counts
    /// as a fault of the store.
    fn back(&mut self, from: Self::From)
        ensures recordings { (shelf self.new).recording ≡ (shelf self.old).recording }
        ensures no_fault { (Self.From.feed from).faults ≡ 0
            → (shelf self.new).faults ≡ (shelf self.old).faults }
        ensures failed { (Self.From.feed from).faults ≢ 0
            → Rises (shelf self.old).faults (shelf self.new).faults }
        ensures lent { (shelf self.new).lent ≡ (shelf self.old).lent - 1 }
        ensures peak { (shelf self.new).peak ≡ (shelf self.old).peak };
}
