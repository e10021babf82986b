//! Laws of every subscriber, as the contract of a function with an empty body.
ghost use Rattle.satip_flow.specs.Sessions.{EachCallKeepsRest};

/// A subscriber holds the packets that its session was given, except those sent or pulled. A
/// packet, a flush and a pull keep this true. The datagrams that they send are the cut of all its
/// packets.
pub fn each_call_keeps_rest()
    ensures keeps_rest { EachCallKeepsRest }
{}
