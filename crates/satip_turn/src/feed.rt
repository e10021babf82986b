//! The source of the events of a burst.
ghost use Rattle.std.specs.Prelude.{◌≡◌, Bool, false, List, [], ◌∷◌, ◌++◌, Option, Some, None, IsSome, if◌then◌else◌, not};
ghost use Rattle.satip_base.specs.declared.entry.Taken.{Taken};
ghost use Rattle.satip_base.specs.History.{taken};

use satip_base::Served;

/// A source of events. It is given each answer before it is asked for the next event.
pub trait Feed<S: Served> {
    // the event that was given and not yet answered, if there is one
    ghost given: { Self → Option S.Event };

    // whether it had no event left when it was last asked
    ghost ended: { Self → Bool };

    // from the first state to the second, it took these events with their answers and outputs, in
    // order
    ghost has_taken: { Self → Self → List (Taken S.Event S.Answer S.Out) → Type 0 };

    // the output that it took last may be this one
    ghost took_last: { Self → S.Out → Type 0 };

    /// Writes the next event over `event` and returns true. Returns false if there is none left, and
    /// isn't called again then.
    fn next(&mut self, event: &mut S::Event) -> bool
        requires open { ended self.old ≡ false }
        requires none { given self.old ≡ None }
        ensures given { given self.new ≡ (if result then Some event.new else None) }
        ensures ended { ended self.new ≡ not result }
        ensures taken { (first : Self) (ts : List (Taken S.Event S.Answer S.Out))
            → has_taken first self.old ts → has_taken first self.new ts }
        ensures took_last { (o : S.Out) → took_last self.old o → took_last self.new o };

    /// Takes the answer to the event that was given, and its output, which is in `out`.
    fn took(&mut self, answer: &S::Answer, out: &S::Out)
        requires { IsSome (given self.old) }
        ensures given { given self.new ≡ None }
        ensures ended { ended self.new ≡ ended self.old }
        ensures taken { (first : Self) (ts : List (Taken S.Event S.Answer S.Out)) (e : S.Event)
            → given self.old ≡ Some e → has_taken first self.old ts
            → has_taken first self.new (ts ++ taken e answer.now out.now ∷ []) }
        ensures took_last { took_last self.new out.now };

    // from a state to itself, nothing was taken
    ghost none_taken: { (s : Self) → has_taken s s [] };
}
