//! The laws of journals. Each function does nothing; its contract is the law.

ghost use Rattle.satip_journal_serve.specs.Laws.{HasOneVerdict, JournalsAreOneHistory, OwnAreBehind};

/// States that the lines of a caller have the places after those of the entries before it came.
pub fn own_are_behind()
    ensures law { OwnAreBehind }
{}

/// States that the journals of all jobs, the first with the start line, are judged `yes` with the
/// length of the history, in whatever order they are put together.
pub fn journals_are_one_history()
    ensures law { JournalsAreOneHistory }
{}

/// States that two verdicts on one text by one configuration are the same.
pub fn text_has_one_verdict()
    ensures law { HasOneVerdict }
{}
