//! Laws of all texts, for callers that read messages from one.
ghost use Rattle.satip_frame.specs.Laws.{OneReading, KeptByMoreBytes, FirstIsFirst, AllAreFirst, FirstByMoreBytes, NoMoreThanBytes, HasReading};
ghost use Rattle.satip_frame.specs.Calls.{HandsOutFirst, MissesNothing};

/// A text has one list of messages and one tail.
pub fn one_reading()
    ensures law { OneReading }
{}

/// When more bytes follow, the messages read before stay the first ones, and a broken text stays
/// broken.
pub fn kept_by_more_bytes()
    ensures law { KeptByMoreBytes }
{}

/// If a text begins with some messages, they are the first of its messages.
pub fn first_is_first()
    ensures law { FirstIsFirst }
{}

/// All the messages of a text are its first ones.
pub fn all_are_first()
    ensures law { AllAreFirst }
{}

/// The first messages of a text stay its first ones when more bytes follow.
pub fn first_by_more_bytes()
    ensures law { FirstByMoreBytes }
{}

/// A text has no more messages than bytes.
pub fn no_more_than_bytes()
    ensures law { NoMoreThanBytes }
{}

/// Each text has messages and a tail.
pub fn has_reading()
    ensures law { HasReading }
{}

/// However the text is cut into pieces, the messages that a new framer finds are the first ones of
/// the text that was fed.
pub fn hands_out_first()
    ensures first { HandsOutFirst }
{}

/// After `More`, `Bad` or `TooLong` they are all messages of the text that was fed, and the text
/// has that tail.
pub fn misses_nothing()
    ensures complete { MissesNothing }
{}
