//! Gives tests packets and outputs.

use satip_base::Out;
use satip_fixtures::packet_bytes;
use satip_ts::Packet;
use std::alloc::Global;
use std::process::Abort;

/// Returns a packet of this PID.
pub(crate) fn packet(rt: &impl Abort, pid: u8) -> Packet {
    Packet::of(&packet_bytes(pid)).expect(rt, "packet")
}

/// Creates an output.
pub(crate) fn output(rt: &impl Abort, alloc: Global) -> Out {
    Out::make(alloc).expect(rt, "out of memory")
}
