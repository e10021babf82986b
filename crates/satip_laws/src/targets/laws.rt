//! The targets of the datagrams of every legal history. Each function does nothing; its contract is
//! the law.

ghost use Rattle.satip_laws.specs.Targets.Targets.{DatagramsGoToLast, DatagramsGoToOne};

/// Proves that each datagram of an entry goes to the client of the last accepted SETUP of its
/// session. RTP goes to the first port that the SETUP asked for, reports to the second.
pub fn datagrams_go_to_last()
    ensures law { DatagramsGoToLast }
{}

/// Proves that each datagram of a history goes to the client and port of one of the history's
/// accepted SETUPs of its session.
pub fn datagrams_go_to_one()
    ensures law { DatagramsGoToOne }
{}
