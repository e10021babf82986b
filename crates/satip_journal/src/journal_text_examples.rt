//! Worked examples of journals.

ghost use Rattle.satip_journal.specs.Rows.{AllIsLogged, BeginningIsLogged, BeginningIsNotAll, NoneIsPlaced, NothingBehindAFault, OthersArePlaced, OwnAreLines, OwnArePlaced};

/// States the lines of a caller's entries, and the bytes of a text that a sink was sent, worked out
/// by hand. It does nothing; its contract is the examples.
pub fn worked_journal()
    ensures own { OwnArePlaced }
    ensures others { OthersArePlaced }
    ensures none { NoneIsPlaced }
    ensures lines { OwnAreLines }
    ensures all { AllIsLogged }
    ensures beginning { BeginningIsLogged }
    ensures not_all { BeginningIsNotAll }
    ensures nothing_more { NothingBehindAFault }
{}
