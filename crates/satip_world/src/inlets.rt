//! Inlets: they receive datagrams.

ghost use Rattle.std.specs.Prelude.{◌≡◌, ◌≤◌, length};

use crate::connections::Received;

/// A port at which datagrams are received. The port after it belongs to this client too, and
/// nothing listens there (RFC 3550, section 11: RTP at an even port, RTCP at the next one).
pub trait Inlet {
    ghost use Rattle.satip_world.specs.Inboxes.{Inbox, Gets};

    // The fact under which the content is exposed: it holds always or never.
    ghost tells: { Type 0 };

    // The port, the datagrams received, and the counts.
    ghost inbox: { Self → Inbox };

    /// Returns the port: from 1 to 65534.
    fn port(&self) -> u16
        ensures port { result ≡ (inbox self.now).port }
        ensures some { 1 ≤ result }
        ensures next { result ≤ 65534 };

    /// Receives one datagram into the front of the buffer, which has at least 2048 bytes. A longer
    /// datagram is cut to the buffer. `Got` has the count of its bytes, 0 for an empty one. `End`
    /// is never returned.
    fn receive(&mut self, buf: &mut [u8]) -> Received
        requires room { 2048 ≤ length buf.old }
        ensures gets { Gets tells (inbox self.old) (inbox self.new) buf.new result };
}
