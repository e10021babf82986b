//! The laws of the lanes in every legal history of a tunnel, as contracts of functions with empty
//! bodies.

ghost use Rattle.satip_tunnel_laws.specs.LaneFrames.{FramesAreLanes};
ghost use Rattle.satip_tunnel_laws.specs.Owners.{ConnectionsTakeFirst, EntersDrainOwn, LanesAreOwn, PartsDrainOwn};

use satip_interleave::{frames_keep_order, lane_numbers_rise};

/// Proves that the drains of a lane took a prefix of its frames, each of them whole. They took all
/// that it had before its last drain, if that was answered that no frame waits.
pub fn frames_are_lanes()
    ensures law { FramesAreLanes }
{
    frames_keep_order();
}

/// Proves that each drain of a lane is of the caller that was given it, if each caller drains and
/// gives up only lanes that it was given. So that caller's drains took a prefix of the lane's
/// frames.
pub fn lanes_are_own()
    ensures law { LanesAreOwn }
{
    lane_numbers_rise();
    frames_are_lanes();
}

/// Proves that the drains of a connection took a prefix of its lane's frames. They took all that
/// the lane had before the last of them, if that was answered that no frame waits.
pub fn connections_take_first()
    ensures law { ConnectionsTakeFirst }
{
    lane_numbers_rise();
    lanes_are_own();
}

/// Proves that a caller's entries drain only lanes that it was given, if each part of them drains
/// only lanes given in that part. An Enter is such a part, with entries that drain and give up only
/// its lane.
pub fn connections_drain_own()
    ensures parts { PartsDrainOwn }
    ensures enters { EntersDrainOwn }
{}
