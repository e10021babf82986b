//! `Crew`: a caller from which others are split off.

ghost use Rattle.std.specs.Prelude.{◌≡◌, List};
ghost use Rattle.satip_base.specs.Output.{Output};
ghost use Rattle.satip_base.specs.declared.entry.Entry.{Entry};
ghost use Rattle.satip_base.specs.Lists.{Begins};
ghost use Rattle.satip_plain.specs.declared.setting.Setting.{Setting};
ghost use Rattle.satip_turn.specs.Shown.{Cell, Shown, IsUnused, Keeps, Knows, joined, newborn, with_made};
ghost use Rattle.satip_jobs.specs.Passes.{Stops};

use crate::end::ServeEnd;
use satip_base::Out;

/// A caller of a value that many share, with a pass of its turn cell. Other callers are split off
/// from it and joined into it again.
pub trait Crew {
    /// The events of the value's history.
    type Asks;

    /// The answers of the value's history.
    type Answers;

    /// The devices that a caller has in addition to the right to call. They are given when the
    /// caller is split off, and come back when it is joined.
    type Gear: Send + Drop;

    // the cell that it calls
    ghost cell: { Self → Cell Setting };

    // its pass, as contracts see it
    ghost pass: { Self → Shown Self.Asks Self.Answers Output Setting };

    // the devices that it has in addition to its pass
    ghost gear: { Self → Self.Gear };

    // the histories that are legal in a setting
    ghost legal: { Setting → List (Entry Self.Asks Self.Answers Output) → Type 0 };

    // whether an entry is a stop
    ghost is_stop: { Entry Self.Asks Self.Answers Output → Type 0 };

    // the second is the first after its stop
    ghost goes_on: { Self → Self → Type 0 };

    /// Creates a new caller of the same value, with this gear.
    fn split(&mut self, given: Self::Gear) -> Self
        ensures cell { cell self.new ≡ cell self.old }
        ensures gear { gear self.new ≡ gear self.old }
        ensures unused { IsUnused (pass self.old) (pass result).number }
        ensures made { pass self.new ≡ with_made (pass self.old) (pass result).number }
        ensures knows { Knows (legal (cell self.old).setting) (pass self.new) }
        ensures same_cell { cell result ≡ cell self.old }
        ensures new { pass result ≡ newborn (pass self.old) (pass result).number }
        ensures given { gear result ≡ given };

    /// Joins the pass of another caller of the same value into this one's; returns the other's
    /// gear.
    fn join(&mut self, other: Self) -> Self::Gear
        requires cell { cell other ≡ cell self.old }
        ensures cell { cell self.new ≡ cell self.old }
        ensures gear { gear self.new ≡ gear self.old }
        ensures joined { pass self.new ≡ joined (pass self.old) (pass other) }
        ensures mine { Begins (pass self.old).seen (pass self.new).seen }
        ensures theirs { Begins (pass other).seen (pass self.new).seen }
        ensures knows { Knows (legal (cell self.old).setting) (pass self.new) }
        ensures back { result ≡ gear other };

    /// Executes the stop, unless the history is full. May wait.
    fn stop(&mut self, out: &mut Out) -> ServeEnd
        ensures cell { cell self.new ≡ cell self.old }
        ensures keeps { Keeps (pass self.old) (pass self.new) }
        ensures knows { Knows (legal (cell self.old).setting) (pass self.new) }
        ensures stops { Stops is_stop result (pass self.old) (pass self.new) }
        ensures goes_on { goes_on self.old self.new };
}
