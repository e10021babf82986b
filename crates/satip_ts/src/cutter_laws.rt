//! Laws of every list of calls of a cutter, as contracts of functions with an empty body.
ghost use Rattle.satip_ts.specs.Calls.{HandsOutFirst, MissesNothing};

/// However the text is cut into pieces, the packets that a new cutter returns are the first packets
/// of the text that was fed.
pub fn hands_out_first()
    ensures first { HandsOutFirst }
{}

/// After a `None` they are all packets of the text that was fed.
pub fn misses_nothing()
    ensures complete { MissesNothing }
{}
