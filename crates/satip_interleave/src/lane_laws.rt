//! The laws of all calls of the lanes, as contracts of functions with empty bodies.

ghost use Rattle.satip_interleave.specs.Calls.{NumbersRise, HeldByNumber};
ghost use Rattle.satip_interleave.specs.Turns.{FramesKeepOrder};

/// Proves that the numbers given to connections rise after any calls, so none is given twice.
pub fn numbers_rise()
    ensures law { NumbersRise }
{}

/// Proves that the held lanes have rising numbers after any calls, all of which were given.
pub fn held_by_number()
    ensures law { HeldByNumber }
{}

/// Proves that the frames that left a lane and those that wait are a prefix of all that arrived.
/// They are all of them if the lane isn't broken.
pub fn frames_keep_order()
    ensures law { FramesKeepOrder }
{}
