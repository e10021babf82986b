//! The memory in which a tunnel's worker serves its connections.
ghost use Rattle.std.specs.Prelude.{◌≡◌, [], IfOk};
ghost use Rattle.satip_base.specs.Output.{empty};
ghost use Rattle.satip_frame.specs.Held.{new_framer};
ghost use Rattle.satip_rtsp_interleaved.specs.Held.{new_parter};

use satip_base::Want;
use satip_interleave::TunnelRoom;
use satip_worker::Room;
use std::alloc::Global;

/// The memory for RTSP connections and for HTTP connections.
#[derive(Drop)]
pub struct WorkerRoom {
    pub rtsp: TunnelRoom,
    pub http: Room,
}

impl WorkerRoom {
    /// Takes all the memory for serving connections one after another. Returns `Want` if it was
    /// refused.
    pub fn make(alloc: Global) -> Result<WorkerRoom, Want>
        ensures parter { IfOk result (λ room. room.rtsp.parter ≡ new_parter) }
        ensures framer { IfOk result (λ room. room.http.framer ≡ new_framer) }
        ensures outs { IfOk result (λ room. (room.rtsp.out ≡ empty) × (room.http.out ≡ empty)) }
        ensures reply { IfOk result (λ room. room.rtsp.reply ≡ []) }
    {
        Ok(WorkerRoom {
            rtsp: TunnelRoom::make(alloc)?,
            http: Room::make(alloc)?,
        })
    }
}
