//! Values that answer events one after another.
ghost use Rattle.std.specs.Prelude.{◌≡◌, ℕ, List, [], ◌∷◌, ◌++◌};
ghost use Rattle.satip_base.specs.declared.entry.Entry.{Entry};
ghost use Rattle.satip_base.specs.History.{entry};

/// A value that answers events. It has a setting, which no event changes. It may result from
/// several histories, and each of them is legal in its setting.
pub trait Served: Drop + Send {
    /// An event.
    type Event: Drop;

    /// The output of an event besides its answer.
    type Out;

    /// The answer to an event.
    type Answer: Drop;

    /// The part of the value that no event changes.
    type Setting;

    // the setting of a value
    ghost setting: { Self → Self.Setting };

    // a history is legal in a setting
    ghost legal: { Self.Setting → List (Entry Self.Event Self.Answer Self.Out) → Type 0 };

    // a value may result from a history
    ghost stands_for: { Self → List (Entry Self.Event Self.Answer Self.Out) → Type 0 };

    /// Answers one event, and writes its output into `out`. If the value may result from a history
    /// before the call, then after it from that history with one more entry, of any caller.
    fn serve(&mut self, event: &Self::Event, out: &mut Self::Out) -> Self::Answer
        ensures same { setting self.new ≡ setting self.old }
        ensures stands { (h : List (Entry Self.Event Self.Answer Self.Out)) (n : ℕ)
            → stands_for self.old h
            → stands_for self.new (h ++ entry n event.now result out.new ∷ []) };

    // a value results only from legal histories
    ghost is_legal: { (s : Self) (h : List (Entry Self.Event Self.Answer Self.Out))
        → stands_for s h → legal (setting s) h };
}
