//! Requests of messages, over RTSP or HTTP.

ghost use Rattle.std.specs.Prelude.{◌≡◌};

use crate::framing::Break;
use crate::said::Message;

/// A request: that of a message, or that of a break, which ends the messages of a text. Both calls
/// overwrite the request before, since moving it costs time.
pub trait Asks {
    ghost use Rattle.satip_frame.specs.Said.{Said};
    ghost use Rattle.satip_frame.specs.declared.framing.Break.{Break};

    // The request of a message.
    ghost asked: { Said → Self };

    // The request of a break.
    ghost broken: { Break → Self };

    /// Replaces this request by that of a message.
    fn found(&mut self, message: &Message<'_>)
        ensures asked { self.new ≡ asked message.now };

    /// Replaces this request by that of a break.
    fn ended(&mut self, cause: Break)
        ensures broken { self.new ≡ broken cause };
}
