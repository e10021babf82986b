//! Worked examples of verdicts.

ghost use Rattle.satip_audit.specs.Rows.{OtherAnswerDiffers, SameTwiceIsRepeated, SecondIsMissing, StopIsYes, WithoutStart};

/// States verdicts on a few lines, worked out by hand. It does nothing; its contract is the
/// examples.
pub fn worked_verdicts()
    ensures stop { StopIsYes }
    ensures differs { OtherAnswerDiffers }
    ensures missing { SecondIsMissing }
    ensures repeated { SameTwiceIsRepeated }
    ensures no_start { WithoutStart }
{}
