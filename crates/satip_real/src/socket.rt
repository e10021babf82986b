//! A non-blocking stream, with its wait until it is ready.

ghost use Rattle.std.specs.Prelude.{◌≡◌};
ghost use Rattle.std.specs.Io.{ReadsAtMost, WritesAtMost};

use crate::readiness::{Watch, pause};
use crate::sending::Unhurried;
use mio::Interest;
use mio::net::TcpStream;
use satip_datagrams::is_passing;
use satip_host::Stopwatch;
use std::io;
use std::io::{ErrorKind, Read, Write};
use std::net::Shutdown;

// The time for which a closing connection waits for the client's end, in milliseconds.
const LAST_WAIT_MS: u64 = 500;

// The most pieces of input that a closing connection drops.
const LAST_READS: u32 = 65536;

// The longest wait of a send, in milliseconds.
const SEND_WAIT_MS: u64 = 50;

/// A non-blocking stream, and what is reported of it. Input is reported once, when it comes. So a
/// read comes first, and only after one that found nothing a wait.
#[derive(Drop)]
pub(crate) struct Socket {
    pub(crate) stream: TcpStream,
    watch: Watch,
    // Whether the last read found nothing, and no input was reported since.
    is_drained: bool,
    // Whether input is reported. While a send waits, output is.
    hears: bool,
}

impl Socket {
    /// Watches a stream that is connected, or for which connecting has begun.
    pub(crate) fn open(rt: &HostRuntime, stream: TcpStream) -> io::Result<Socket> {
        let mut stream = stream;
        let watch = Watch::open(rt)?;
        watch.add(&mut stream)?;
        Ok(Socket {
            stream,
            watch,
            is_drained: false,
            hears: true,
        })
    }

    /// Reads input, after a wait of up to `wait_ms` milliseconds if there is none.
    pub(crate) fn read(&mut self, wait_ms: u64, buf: &mut [u8]) -> io::Result<usize>
        ensures within { ReadsAtMost result buf.new }
    {
        if !self.is_drained {
            let read = self.read_now(buf);
            if !self.is_drained {
                return read;
            }
        }
        if !self.await_input(wait_ms)? {
            return Err(io::Error::from(ErrorKind::WouldBlock));
        }
        self.read_now(buf)
    }

    // Reads the input that is there.
    fn read_now(&mut self, buf: &mut [u8]) -> io::Result<usize>
        ensures within { ReadsAtMost result buf.new }
    {
        let read = self.stream.read(buf);
        self.is_drained = match &read {
            Ok(_) => false,
            Err(error) => error.kind() == ErrorKind::WouldBlock,
        };
        read
    }

    // Waits until input is reported; returns whether it was. What came while output was reported is
    // reported now.
    fn await_input(&mut self, wait_ms: u64) -> io::Result<bool> {
        if !self.hears {
            self.watch.change(&mut self.stream, Interest::READABLE)?;
            self.hears = true;
        }
        self.watch.wait(wait_ms)
    }

    /// Waits up to `wait_ms` milliseconds until the stream takes output or has a fault; returns
    /// whether it does.
    pub(crate) fn takes_output(&mut self, wait_ms: u64) -> io::Result<bool> {
        self.hears = false;
        self.watch.change(&mut self.stream, Interest::WRITABLE)?;
        self.watch.wait(wait_ms)
    }

    /// Ends the output, and drops input until the other end ends its own, for up to 500 ms. A stream
    /// that is closed while the other end sends is reset, and the last bytes sent may be lost.
    pub(crate) fn finish(&mut self, time: &Stopwatch) {
        if self.stream.shutdown(Shutdown::Write).is_err() {
            return;
        }
        let mut dropped = [0u8; 4096];
        for _ in 0..LAST_READS {
            let left_ms = LAST_WAIT_MS.saturating_sub(time.elapsed_ms());
            if left_ms == 0 {
                return;
            }
            match self.read(left_ms, &mut dropped) {
                Ok(0) => return,
                Ok(_) => (),
                Err(error) if is_passing(&error) => (),
                Err(_) => return,
            }
        }
    }
}

impl Write for Socket {
    fn write(&mut self, buf: &[u8]) -> io::Result<usize>
        ensures bound { WritesAtMost result buf.now }
    {
        self.stream.write(buf)
    }

    fn flush(&mut self) -> io::Result<()> {
        Ok(())
    }
}

impl Unhurried for Socket {
    fn wait(&mut self) -> bool {
        self.takes_output(SEND_WAIT_MS).unwrap_or(true)
    }

    fn rest(&mut self) {
        pause(SEND_WAIT_MS as i32);
    }
}
