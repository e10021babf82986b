//! Worked examples of journals put together.

ghost use Rattle.satip_journal_serve.specs.JournalRows.{JournalsOfTwo, OtherOrderIsYes};

/// States the journals of two jobs, and the verdict on them in the other order, worked out by hand.
/// It does nothing; its contract is the examples.
pub fn worked_journals()
    ensures journals { JournalsOfTwo }
    ensures other_order { OtherOrderIsYes }
{}
