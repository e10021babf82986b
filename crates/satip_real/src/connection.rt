//! A TCP connection to a client, or to a server that was dialed.

ghost use Rattle.std.specs.Prelude.{◌≡◌, false, IfOk};
ghost use Rattle.std.specs.Io.{ReadsAtMost};

use crate::dialing::connect;
use crate::options::prepare;
use crate::sending::{advance, send_all};
use crate::silence::Silence;
use crate::socket::Socket;
use crate::visits::Visits;
use mio::net::TcpStream;
use satip_base::{Address, Put};
use satip_datagrams::is_passing;
use satip_host::Stopwatch;
use satip_world::{Conn, ConnEnd, Received};
use std::io;
use std::io::ErrorKind;
use std::marker::Model;
use std::sync::Arc;

// The length of one wait for a dialed server, in milliseconds.
const SERVER_WAIT_MS: u64 = 1;

/// A TCP connection to a client, or to a server that was dialed.
///
/// A receive from a client waits for bytes, and is idle if none came. It waits up to
/// - 50 ms for an HTTP client that was sent something, and 10 ms once after its request;
/// - 35 ms for an RTSP client to whom frames may go; 10 ms in the four receives after bytes were
///   received, or more than 131072 were sent between two; 50 ms after more than 8192 were sent, if
///   none of the last 32 receives came after more than 131072;
/// - a second for any other client.
///
/// A byte ends each wait. A client is silent while it sends nothing and nothing is sent to it. Over
/// RTSP, and over HTTP before anything was sent to it, a receive fails
/// - if the client is silent for longer than the doors' timeout;
/// - if others wait at the doors, and the client has sent nothing for 2 s since it came;
/// - if others wait at the doors, and nothing was sent to the client for 10 s after it sent bytes;
///   for 0.5 s if it was never sent anything, one such client was given up, and others waited since.
///
/// A wait ends when one of these times does. What a client sent counts as an arrival at the next
/// receive, when its connection is closed, and when a send has to wait.
///
/// If the server may be asked to end, a receive from a client waits up to 250 ms. Once it was asked
/// to, and the time for its connections is over, each receive is the end.
///
/// A receive from a server waits up to 1 ms for bytes, and no silence makes it fail.
///
/// A send waits until the other end takes all bytes. It fails after 200 waits of 50 ms in a row in
/// which the other end took nothing.
#[derive(Drop)]
pub struct RealConn {
    socket: Socket,
    // That of a client. A dialed server has none: the caller that dialed counts the idles itself.
    silence: Option<Silence>,
    // What counts its bytes, if somebody does.
    visits: Option<Arc<Visits>>,
    ended: bool,
    idles: u64,
    receive_faults: u64,
    send_faults: u64,
}

impl Model for RealConn {
    ghost use Rattle.std.specs.Prelude.{[]};
    ghost use Rattle.satip_world.specs.Lines.{Line};

    ghost Value = { Line };

    ghost view = { λ c. record {
      received = [];
      sent = [];
      ended = c.ended;
      idles = c.idles;
      receive_faults = c.receive_faults;
      send_faults = c.send_faults;
    } };
}

impl RealConn {
    ghost use Rattle.satip_world.specs.Lines.{fresh_line};

    /// Creates a connection over a stream that was just accepted, whose bytes are counted in
    /// `visits`. Fails if the system can't report what happens to it.
    pub(crate) fn open(
        rt: &HostRuntime,
        stream: TcpStream,
        silence: Silence,
        visits: Option<Arc<Visits>>,
    ) -> io::Result<RealConn>
        ensures fresh { IfOk result (λ conn. conn ≡ fresh_line) }
    {
        let socket = Socket::open(rt, stream)?;
        Ok(RealConn::over(socket, Some(silence), visits))
    }

    /// Connects to a server, which has up to 10 s to accept. Returns the error of a refusal or
    /// failure (connect(2)).
    pub fn dial(rt: HostRuntime, to: Address) -> io::Result<RealConn>
        ensures fresh { IfOk result (λ conn. conn ≡ fresh_line) }
    {
        let socket = connect(rt, to)?;
        Ok(RealConn::over(socket, None, None))
    }

    fn over(socket: Socket, silence: Option<Silence>, visits: Option<Arc<Visits>>) -> RealConn
        ensures fresh { result ≡ fresh_line }
    {
        prepare(&socket.stream);
        RealConn {
            socket,
            silence,
            visits,
            ended: false,
            idles: 0,
            receive_faults: 0,
            send_faults: 0,
        }
    }

    // Reads the next bytes; 0 if the server was asked to end and the connection has to. Returns
    // `TimedOut` if the other end was silent for too long.
    fn hear(&mut self, buf: &mut [u8]) -> io::Result<usize>
        ensures within { ReadsAtMost result buf.new }
        ensures same { self.new ≡ self.old }
    {
        let Some(silence) = &mut self.silence else {
            return self.socket.read(SERVER_WAIT_MS, buf);
        };
        let wait_ms = silence.next_wait_ms();
        if silence.has_to_end() {
            return Ok(0);
        }
        match self.socket.read(silence.cut_ms(wait_ms), buf) {
            Ok(count) => {
                silence.hear();
                if silence.is_over() {
                    return Err(io::Error::from(ErrorKind::TimedOut));
                }
                Ok(count)
            }
            Err(error) if is_passing(&error) && silence.is_over() => {
                Err(io::Error::from(ErrorKind::TimedOut))
            }
            Err(error) => Err(error),
        }
    }

    fn count_received(&self, count: usize) {
        if let Some(visits) = &self.visits {
            visits.receive(count);
        }
    }

    fn count_sent(&self, count: usize) {
        if let Some(visits) = &self.visits {
            visits.send(count);
        }
    }

    // Sends all bytes.
    fn put(&mut self, bytes: &[u8]) -> io::Result<()>
        ensures same { self.new ≡ self.old }
    {
        let rest = advance(&mut self.socket, bytes)?;
        if rest.is_empty() {
            return Ok(());
        }
        if let Some(silence) = &self.silence {
            silence.show_events();
        }
        send_all(&mut self.socket, rest)
    }

    /// Closes the connection. After a service that ended as `Done`, the other end has up to 500 ms
    /// to take the last bytes and to end its own side.
    pub fn close(self, rt: HostRuntime, end: ConnEnd) {
        let mut conn = self;
        if let Some(silence) = &mut conn.silence {
            silence.end_piece();
        }
        if end == ConnEnd::Done {
            conn.socket.finish(&Stopwatch::start(rt));
        }
    }
}

impl Conn for RealConn {
    ghost tells = { ⊥ };

    ghost line = { λ c. c };

    fn receive(&mut self, buf: &mut [u8]) -> Received {
        if self.ended {
            return Received::End;
        }
        match self.hear(buf) {
            Ok(0) => {
                self.ended = true;
                Received::End
            }
            Ok(count) => {
                self.count_received(count);
                Received::Got(count)
            }
            Err(error) if is_passing(&error) => {
                self.idles = self.idles.saturating_add(1);
                Received::Idle
            }
            Err(_) => {
                self.receive_faults = self.receive_faults.saturating_add(1);
                Received::Failed
            }
        }
    }

    fn send(&mut self, bytes: &[u8]) -> Put {
        if let Some(silence) = &mut self.silence {
            silence.answer(bytes.len());
        }
        if self.put(bytes).is_ok() {
            self.count_sent(bytes.len());
            return Put::Whole;
        }
        self.send_faults = self.send_faults.saturating_add(1);
        Put::Failed
    }
}
