//! The events of a burst.
ghost use Rattle.std.specs.Prelude.{◌≡◌, Bool, false, List, [], ◌∷◌, ◌++◌, Option, Some, None, IsSome, if◌then◌else◌, not};
ghost use Rattle.satip_base.specs.declared.entry.Taken.{Taken};
ghost use Rattle.satip_base.specs.History.{taken};
ghost use Rattle.satip_base.specs.Output.{Output};
ghost use Rattle.satip_plain.specs.declared.answers.Answer.{Answer};
ghost use Rattle.satip_plain.specs.declared.events.Event.{Event};

use crate::answers::Answer;
use crate::events::Event;
use satip_base::Out;

/// A source of events. Each event is answered before the next is asked for.
pub trait Lot {
    // the event that was given and not yet answered, if there is one
    ghost given: { Self → Option Event };

    // whether it had no event left when it was last asked
    ghost ended: { Self → Bool };

    // from the first state to the second, it took these events with their answers and outputs, in
    // order
    ghost has_taken: { Self → Self → List (Taken Event Answer Output) → Type 0 };

    // the output that it took last may be this one
    ghost took_last: { Self → Output → Type 0 };

    /// Writes the next event over `event` and returns true. Returns false if there is none left, and
    /// isn't called again then.
    fn next(&mut self, event: &mut Event) -> bool
        requires open { ended self.old ≡ false }
        requires none { given self.old ≡ None }
        ensures given { given self.new ≡ (if result then Some event.new else None) }
        ensures ended { ended self.new ≡ not result }
        ensures taken { (first : Self) (ts : List (Taken Event Answer Output))
            → has_taken first self.old ts → has_taken first self.new ts }
        ensures took_last { (o : Output) → took_last self.old o → took_last self.new o };

    /// Takes the answer to the event that was given, and its output, which is in `out`.
    fn took(&mut self, answer: &Answer, out: &Out)
        requires { IsSome (given self.old) }
        ensures given { given self.new ≡ None }
        ensures ended { ended self.new ≡ ended self.old }
        ensures taken { (first : Self) (ts : List (Taken Event Answer Output)) (e : Event)
            → given self.old ≡ Some e → has_taken first self.old ts
            → has_taken first self.new (ts ++ taken e answer.now out.now ∷ []) }
        ensures took_last { took_last self.new out.now };

    // from a state to itself, nothing was taken
    ghost none_taken: { (s : Self) → has_taken s s [] };
}
