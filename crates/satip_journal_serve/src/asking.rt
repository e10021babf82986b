//! Asks a desk for journals.

ghost use Rattle.std.specs.Prelude.{◌≡◌, ◌++◌, ◌≤◌, [], length, map, vec_capacity, IsTrue, MatchBool};
ghost use Rattle.satip_base.specs.Streams.{fresh_drain};
ghost use Rattle.satip_base.specs.Lists.{Each};
ghost use Rattle.satip_world.specs.Counts.{Rises};
ghost use Rattle.satip_journal_serve.specs.Asked.{first_jobs};

use satip_base::Failed;
use satip_desk::Desk;

// Asks the desk for the journals of `count` jobs, in their order, until it fails. Returns whether
// it gave all.
pub(crate) fn ask_journals<K: Desk>(
    journals: &mut Vec<K::Journal>,
    count: usize,
    desk: &mut K,
) -> bool
    requires none { journals.old.items ≡ [] }
    requires space { count ≤ vec_capacity journals.old }
    ensures texts { (K.desk desk.new).text ≡ (K.desk desk.old).text }
    ensures kits { (K.desk desk.new).given ≡ (K.desk desk.old).given }
    ensures handed { (K.desk desk.new).handed ≡ (K.desk desk.old).handed }
    ensures journaled { (K.desk desk.new).journaled
        ≡ (K.desk desk.old).journaled ++ first_jobs (length journals.new.items) }
    ensures jobs { map K.Journal.job journals.new.items
        ≡ first_jobs (length journals.new.items) }
    ensures fresh { Each (λ j. K.Journal.drain j ≡ fresh_drain) journals.new.items }
    ensures all { IsTrue result → length journals.new.items ≡ count }
    ensures faults { MatchBool result ((K.desk desk.new).faults ≡ (K.desk desk.old).faults)
        (Rises (K.desk desk.old).faults (K.desk desk.new).faults) }
{
    'jobs: while journals.len() < count {
        match desk.journal(journals.len() as u64) {
            Ok(journal) => journals.push_reserved(journal),
            Err(Failed) => return false,
        }
    }
    true
}
