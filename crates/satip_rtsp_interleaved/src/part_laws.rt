//! Laws of all texts, and of every list of calls of a parter, as contracts of functions with an
//! empty body.
ghost use Rattle.satip_rtsp_interleaved.specs.Laws.{OneReading, HasReading, KeptByMoreBytes, FirstIsFirst, FramesCountNowhere, WholePartsAreRead};
ghost use Rattle.satip_rtsp_interleaved.specs.Calls.{PartsLaw};

/// However the text is cut into pieces, the messages that a new parter finds are the first ones of
/// the text that was fed. After `More`, `Bad` or `TooLong` they are all messages of the text, and
/// the text has that tail.
pub fn hands_out_first()
    ensures law { PartsLaw }
{}

/// A text has one list of messages and one tail.
pub fn one_reading()
    ensures law { OneReading }
{}

/// Each text has messages and a tail.
pub fn has_reading()
    ensures law { HasReading }
{}

/// When more bytes follow, the messages read before stay the first ones, and a broken text stays
/// broken.
pub fn kept_by_more_bytes()
    ensures law { KeptByMoreBytes }
{}

/// If a text begins with some messages, they are the first of its messages.
pub fn first_is_first()
    ensures law { FirstIsFirst }
{}

/// A whole frame before a text changes neither its messages nor its tail, whatever its channel and
/// its bytes.
pub fn frames_count_nowhere()
    ensures law { FramesCountNowhere }
{}

/// Whole frames and messages one after another, in any order, are read as these messages, and
/// nothing follows them.
pub fn whole_parts_are_read()
    ensures law { WholePartsAreRead }
{}
