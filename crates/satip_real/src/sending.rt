//! Sends to a client that takes bytes at its own pace.

ghost use Rattle.std.specs.Prelude.{◌≡◌, ◌+◌, ◌<◌, ◌≤◌, min};

use satip_datagrams::is_passing;
use std::io;
use std::io::{ErrorKind, Write};

// The most waits in a row in which the client took nothing.
const IDLE_WAITS: u32 = 200;

/// A non-blocking writer.
pub trait Unhurried: Write {
    /// Waits until it takes bytes, or for a while; returns whether the wait was shorter.
    fn wait(&mut self) -> bool;

    /// Waits for a while, whether or not it takes bytes.
    fn rest(&mut self);
}

/// Writes what the writer takes at once; returns the rest.
pub(crate) fn advance<'b, W: Write>(writer: &mut W, bytes: &'b [u8]) -> io::Result<&'b [u8]> {
    match writer.write(bytes) {
        Ok(count) => Ok(bytes.split_at(count).1),
        Err(error) if is_passing(&error) => Ok(bytes),
        Err(error) => Err(error),
    }
}

// Returns the count of waits since the last progress, after one that left `left` bytes of `before`.
fn idle_waits(waits: u32, before: usize, left: usize) -> u32
    ensures progress { left < before → result ≡ 0 }
    ensures none { before ≤ left → result ≡ min 4294967295 (waits + 1) }
{
    if left < before {
        return 0;
    }
    waits.saturating_add(1)
}

/// Writes all bytes. Gives up after 200 waits in a row in which the client took nothing. If the
/// system has no memory for a ready stream, a wait ends at once, and a rest follows it.
pub fn send_all<W: Unhurried>(writer: &mut W, bytes: &[u8]) -> io::Result<()> {
    let mut rest = advance(writer, bytes)?;
    let mut waits = 0u32;
    for _ in 0..u64::MAX {
        if rest.is_empty() {
            return Ok(());
        }
        if waits >= IDLE_WAITS {
            break;
        }
        let early = writer.wait();
        let left = advance(writer, rest)?;
        if early && left.len() == rest.len() {
            writer.rest();
        }
        waits = idle_waits(waits, rest.len(), left.len());
        rest = left;
    }
    Err(io::Error::from(ErrorKind::TimedOut))
}
