//! The laws of every run of a tunnel's jobs. Each function does nothing; its contract is the law.

ghost use Rattle.satip_tunnel_serve.specs.Runs.{ConnectionsHaveLanes, JobsDrainOwn};

use crate::wire_laws::{runs_drain_own, wires_have_lanes, wires_split_one_way};
use satip_tunnel_laws::connections_drain_own;
use satip_world::Doors;

/// Proves that each caller of a run drains and gives up only lanes that it was given.
pub fn jobs_drain_own<D: Doors>()
    ensures law { JobsDrainOwn D.Conn.tells }
{
    connections_drain_own();
    runs_drain_own();
}

/// Proves that in a run the frames on the wire of each connection are a prefix of its lane's, each
/// of them whole. They are all that the lane had before the last drain, if that was answered that
/// no frame waits. All else on the wire is rewritten replies. The wire splits into replies and
/// frames in one way.
pub fn connections_have_lanes<D: Doors>()
    ensures law { ConnectionsHaveLanes D.Conn.tells }
{
    connections_drain_own();
    runs_drain_own();
    jobs_drain_own::<D>();
    wires_have_lanes();
    wires_split_one_way();
}
