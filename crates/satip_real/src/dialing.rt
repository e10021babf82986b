//! Connecting to a server.

ghost use Rattle.std.specs.Prelude.{◌≤◌, IfSome};

use crate::socket::Socket;
use mio::net::TcpStream;
use satip_base::Address;
use satip_datagrams::{is_passing, socket_addr};
use satip_host::Stopwatch;
use std::io::ErrorKind;
use std::time::Duration;
use std::{io, thread};

// The time that a server has to accept a connection, in milliseconds.
const LIMIT_MS: u64 = 10000;

// The longest wait, in milliseconds.
const WAIT_MS: u64 = 50;

// The most waits; a signal may cut each of them short.
const WAITS: u32 = 65536;

// Returns the length of the next wait in milliseconds; `None` if the time is over.
fn next_wait(watch: &Stopwatch) -> Option<u64>
    ensures short { IfSome result (λ wait_ms. wait_ms ≤ 50) }
{
    let left_ms = LIMIT_MS.saturating_sub(watch.elapsed_ms());
    if left_ms == 0 {
        return None;
    }
    Some(left_ms.min(WAIT_MS))
}

// Starts to connect. Starts again if a signal cuts that short or the system has no room for it now.
// Every other error means that this server can't be reached (connect(2)).
fn begin(rt: HostRuntime, to: Address, watch: &Stopwatch) -> io::Result<TcpStream> {
    for _ in 0..WAITS {
        let Some(wait_ms) = next_wait(watch) else {
            break;
        };
        match TcpStream::connect(&rt, socket_addr(to)) {
            Err(error) if is_passing(&error) => thread::sleep(&rt, Duration::from_millis(wait_ms)),
            begun => return begun,
        }
    }
    Err(io::Error::from(ErrorKind::TimedOut))
}

// Waits until a stream is connected. The socket's pending error says how that ended, after the
// stream takes output (connect(2), EINPROGRESS).
fn settle(socket: &mut Socket, watch: &Stopwatch) -> io::Result<()> {
    for _ in 0..WAITS {
        let Some(wait_ms) = next_wait(watch) else {
            break;
        };
        if socket.takes_output(wait_ms)? {
            return match socket.stream.take_error()? {
                Some(error) => Err(error),
                None => Ok(()),
            };
        }
    }
    Err(io::Error::from(ErrorKind::TimedOut))
}

/// Returns a connection to a server, which has 10 s to accept it.
pub(crate) fn connect(rt: HostRuntime, to: Address) -> io::Result<Socket> {
    let watch = Stopwatch::start(rt);
    let mut socket = Socket::open(&rt, begin(rt, to, &watch)?)?;
    settle(&mut socket, &watch)?;
    Ok(socket)
}
