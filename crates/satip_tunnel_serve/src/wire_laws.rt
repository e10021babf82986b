//! The laws of the wire of every connection of a tunnel. Each function does nothing; its contract
//! is the law.

ghost use Rattle.satip_tunnel_serve.specs.Splits.{WiresSplitOneWay};
ghost use Rattle.satip_tunnel_serve.specs.Wires.{RunsDrainOwn, WiresHaveLanes};

use crate::answer_laws::runs_reply;
use satip_tunnel_laws::{connections_drain_own, connections_take_first, parts_law};

/// Proves that the run of a connection drains and gives up only the lane that it was given.
pub fn runs_drain_own()
    ensures law { RunsDrainOwn }
{
    connections_drain_own();
}

/// Proves that the frames on the wire of a connection are a prefix of its lane's, each of them
/// whole, if callers drain only lanes that they were given. They are all that the lane had before
/// the last drain, if that was answered that no frame waits. All else on the wire is rewritten
/// replies.
pub fn wires_have_lanes()
    ensures law { WiresHaveLanes }
{
    connections_take_first();
}

/// Proves that the wire splits into replies and frames in one way, and that the frames are a prefix
/// of the lane's.
pub fn wires_split_one_way()
    ensures law { WiresSplitOneWay }
{
    parts_law();
    wires_have_lanes();
    runs_reply();
}
