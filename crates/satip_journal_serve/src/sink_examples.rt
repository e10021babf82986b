//! Worked examples of the bytes that the sinks of journals were sent.

ghost use Rattle.satip_journal_serve.specs.SinkRows.{BothAreWhole, CutIsNotWhole, FirstIsCut, NoneRoseIsNoFault, SwappedIsNotWritten};

/// States the bytes that the sinks of two journals were sent, worked out by hand. It does nothing;
/// its contract is the examples.
pub fn worked_sinks()
    ensures whole { BothAreWhole }
    ensures cut { FirstIsCut }
    ensures not_whole { CutIsNotWhole }
    ensures swapped { SwappedIsNotWritten }
    ensures no_fault { NoneRoseIsNoFault }
{}
