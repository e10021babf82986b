//! The memory that a connection is served in.

ghost use Rattle.std.specs.Prelude.{◌≡◌, IfOk};
ghost use Rattle.satip_base.specs.Output.{empty};
ghost use Rattle.satip_frame.specs.Held.{new_framer};

use satip_base::{Out, Want};
use satip_frame::Framer;
use std::alloc::Global;

/// A framer for the bytes that come in, and an `Out` for the output of each event.
#[derive(Drop)]
pub struct Room {
    pub framer: Framer,
    pub out: Out,
}

impl Room {
    /// Takes all the memory for serving connections one after another.
    pub fn make(alloc: Global) -> Result<Room, Want>
        ensures framer { IfOk result (λ room. room.framer ≡ new_framer) }
        ensures out { IfOk result (λ room. room.out ≡ empty) }
    {
        Ok(Room {
            framer: Framer::make(alloc)?,
            out: Out::make(alloc)?,
        })
    }
}
