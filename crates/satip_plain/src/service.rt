//! `Service`: a server that executes events one after another.
ghost use Rattle.std.specs.Prelude.{◌≡◌, ◌<◌, ◌^◌, Bool, false, List, length, None, OnOk};
ghost use Rattle.satip_plain.specs.declared.setting.Setting.{Setting};
ghost use Rattle.satip_plain.specs.Histories.{Item};
ghost use Rattle.satip_plain.specs.Known.{Known};
ghost use Rattle.satip_plain.specs.Calls.{Called, Bursts};

use crate::answers::Answer;
use crate::events::Event;
use crate::fault::ServiceFault;
use crate::lot::Lot;
use satip_base::Out;

/// A server, as one of its callers sees it. With each call the caller may see more entries of the
/// history, its own and those of others.
pub trait Service {
    /// Room for one event of a burst.
    type Room: Drop + Send;

    // the setting that the server was created with
    ghost setting: { Self → Setting };

    // the histories that are legal in a setting
    ghost legal: { Setting → List Item → Type 0 };

    // what this caller knows of the history
    ghost known: { Self → Known };

    // whether it can return `Want` (out of memory)
    ghost may_want: { Self → Bool };

    // the second is the same service as the first, after some calls
    ghost same: { Self → Self → Type 0 };

    /// Creates a room. A caller makes one and lends it to all its bursts.
    fn room() -> Self::Room;

    /// Executes one event. Its entry has the answer, and the output that `out` then holds. An event
    /// with an error has no entry. `Spent` is returned only if the history is full, and `Want` (out
    /// of memory) only if `may_want` holds.
    fn call(&mut self, event: &Event, out: &mut Out) -> Result<Answer, ServiceFault>
        ensures same { same self.old self.new }
        ensures called { Called (may_want self.old) (known self.old) (known self.new) event.now
            out.new result };

    /// Executes the events of the lot one after another: at most 64, until the lot has none left or
    /// an event gets no entry. Each executed event is one entry. Entries of other callers may lie
    /// between them. If all went well, `out` has the output of the last event. Each event is
    /// written over the one that `room` has.
    fn burst<L: Lot>(
        &mut self,
        lot: &mut L,
        room: &mut Self::Room,
        out: &mut Out,
    ) -> Result<(), ServiceFault>
        requires open { L.ended lot.old ≡ false }
        requires none { L.given lot.old ≡ None }
        ensures same { same self.old self.new }
        ensures bursts { Bursts (may_want self.old) (known self.old) (known self.new)
            (L.ended lot.new) (L.given lot.new) (L.has_taken lot.old lot.new) result }
        ensures took_last { OnOk result
            (L.took_last lot.old out.old → L.took_last lot.new out.new) };

    // the entries seen are legal in the setting
    ghost is_legal: { (s : Self) → legal (setting s) (known s).seen };

    // at most 2^64 - 1 entries are seen
    ghost is_short: { (s : Self) → length (known s).seen < 2 ^ 64 };

    // each service is the same as itself
    ghost same_self: { (s : Self) → same s s };

    // the relation is transitive
    ghost same_then: { (r s t : Self) → same r s → same s t → same r t };

    // the same service has the same setting
    ghost same_setting: { (s t : Self) → same s t → setting t ≡ setting s };

    // and `may_want` stays the same
    ghost same_want: { (s t : Self) → same s t → may_want t ≡ may_want s };
}
