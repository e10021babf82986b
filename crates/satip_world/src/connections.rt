//! Connections: bytes are received and sent.

ghost use Rattle.std.specs.Prelude.{◌≤◌, length};

use satip_base::Put;

/// The result of a call of `receive`.
#[derive(Clone, Copy, Debug, PartialEq, Eq)]
pub enum Received {
    /// The count of bytes at the front of the buffer; a connection gives at least one.
    Got(usize),
    /// Nothing was received yet, and the count of idles rose.
    Idle,
    /// The input has ended: nothing more is received, by this call and each later one.
    End,
    /// The connection failed, and its count of failed receives rose. Nothing was received.
    Failed,
}

/// A connection to one client.
pub trait Conn {
    ghost use Rattle.satip_world.specs.Lines.{Line, Receives, Sends};

    // The fact under which the content is exposed: it holds always or never.
    ghost tells: { Type 0 };

    // The bytes received and sent, whether the input ended, and the counts.
    ghost line: { Self → Line };

    /// Receives some bytes into the front of the buffer, which isn't empty.
    fn receive(&mut self, buf: &mut [u8]) -> Received
        requires room { 1 ≤ length buf.old }
        ensures receives { Receives tells (line self.old) (line self.new) buf.new result };

    /// Sends bytes after those that were sent before.
    fn send(&mut self, bytes: &[u8]) -> Put
        ensures sends { Sends tells (line self.old) (line self.new) bytes.now result };
}
