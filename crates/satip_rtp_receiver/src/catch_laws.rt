//! The laws of a catcher and worked examples, as contracts of functions with an empty body.
ghost use Rattle.std.specs.Prelude.{◌≡◌, true, false, [], ◌∷◌};
ghost use Rattle.satip_rtp_receiver.specs.Caught.{caught};
ghost use Rattle.satip_rtp_receiver.specs.Order.{AlwaysCatchesInOrder, AlwaysCatchesSent};
ghost use Rattle.satip_rtp_receiver.specs.Rows.{datagrams, data_of, gap_of};
ghost use Rattle.satip_rtp_receiver.specs.Runs.{AlwaysCatchesAll};

/// Shows that datagrams out of order are caught in order, each once, and that a missing one is a
/// gap. A number is passed after a datagram arrived that is 64 ahead of it.
pub fn worked_rows()
    ensures reordered { caught true (datagrams (65534 ∷ 0 ∷ 65535 ∷ 0 ∷ 3 ∷ []))
        ≡ data_of 65534 ∷ data_of 65535 ∷ data_of 0 ∷ gap_of 1 2 ∷ data_of 3 ∷ [] }
    ensures passed { caught false (datagrams (10 ∷ 75 ∷ 11 ∷ 12 ∷ []))
        ≡ data_of 10 ∷ gap_of 11 1 ∷ data_of 12 ∷ [] }
{}

/// Proves that a new catcher hands up the items that are caught of all datagrams, without the end
/// and with it. It takes them one after another, and hands up all that it can after each.
pub fn always_catches_all()
    ensures caught { AlwaysCatchesAll }
{}

/// Proves that the items keep the sender's order, for any first number and any order of arrival.
/// Each datagram may arrive any number of times, less than 1024 behind the newest before it. With
/// the end known, each from the first arrival up to the newest is in exactly one item, as data or
/// as part of a gap, and packets are unchanged.
pub fn always_catches_in_order()
    ensures caught { AlwaysCatchesInOrder }
{}

/// Proves the same of the items that are caught of the whole list of arrivals. Without the end,
/// they are the first of those with it.
pub fn always_catches_sent()
    ensures caught { AlwaysCatchesSent }
{}
