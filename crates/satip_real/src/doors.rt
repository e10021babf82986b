//! Doors over the shared listeners.

ghost use Rattle.std.specs.Prelude.{◌≡◌, false, IfOk, IfSome};
ghost use Rattle.satip_world.specs.Lines.{fresh_line};

use crate::connection::RealConn;
use crate::errors::{ends_listening, lacks_descriptors};
use crate::listeners::{Listeners, Visitor};
use crate::silence::Silence;
use crate::visits::{Obstacle, Visits};
use satip_base::Peer;
use satip_host::{Start, report_line};
use satip_world::{ConnEnd, Door, DoorKind, Doors};
use std::marker::Model;
use std::sync::Arc;
use std::time::Duration;
use std::{io, thread};

// The time for which doors wait for a connection, in milliseconds. One that comes ends the wait.
const WAIT_MS: i32 = 5_000;

// The time for which doors wait if a connection can't be accepted, in milliseconds.
const SHORTAGE_MS: u64 = 50;

/// The doors of one worker. They wait up to 5 s for the next connection at the RTSP listener or
/// at the HTTP listener, and are idle if none came. If the system has no room for one, they are
/// idle after 50 ms. Only the faults of a listener itself count as theirs (EBADF, EINVAL and
/// ENOTSOCK of accept(2)).
///
/// A connection that is handed back is closed. Each look is a step of the worker. The end and each fault count as an arrival, since the
/// server may stop after them.
///
/// If the server may be asked to end, they wait up to 1 s, and end once it was asked to.
#[derive(Drop)]
pub struct RealDoors {
    rt: HostRuntime,
    start: Start,
    listeners: Arc<Listeners>,
    timeout_s: u32,
    limit: u32,
    // Whether the server may be asked to end.
    may_stop: bool,
    // What counts the connections, if somebody does.
    visits: Option<Arc<Visits>>,
    count: u64,
    ended: bool,
    idles: u64,
    faults: u64,
}

impl Model for RealDoors {
    ghost use Rattle.std.specs.Prelude.{◌≡◌, ◌≢◌, ◌≤◌, [], true, false};
    ghost use Rattle.satip_world.specs.Halls.{Hall};

    ghost Value = { Hall };

    ghost view = { λ d. record {
      limit = d.limit;
      count = d.count;
      ended = d.ended;
      idles = d.idles;
      faults = d.faults;
      told = false;
      given = [];
      returned = [];
    } };

    // Doors of a server that nothing asks to end do so by their limit alone.
    ghost invariant = { λ d. d.ended ≡ true → d.may_stop ≡ false
        → (d.limit ≢ 0) × (d.limit ≤ d.count) };
}

impl RealDoors {
    ghost use Rattle.satip_world.specs.Halls.{fresh_hall};

    /// Creates the doors of a worker. They end after `limit` connections, never if it is 0. A
    /// client that is silent for longer than `timeout_s` seconds is given up.
    pub fn new(
        rt: HostRuntime,
        start: Start,
        listeners: Arc<Listeners>,
        timeout_s: u32,
        limit: u32,
    ) -> RealDoors
        ensures fresh { result ≡ fresh_hall limit false }
    {
        let may_stop = listeners.may_stop();
        RealDoors {
            rt,
            start,
            listeners,
            timeout_s,
            limit,
            may_stop,
            visits: None,
            count: 0,
            ended: false,
            idles: 0,
            faults: 0,
        }
    }

    /// Returns these doors, whose connections are counted.
    pub fn counting(self, visits: Arc<Visits>) -> RealDoors
        ensures same { result ≡ self }
    {
        RealDoors {
            visits: Some(visits),
            ..self
        }
    }

    // Counts a connection that is served from now on.
    fn begin_visit(&self, kind: DoorKind, peer: Peer, port: u16) {
        if let Some(visits) = &self.visits {
            visits.begin(&self.rt, kind, peer, port);
        }
    }

    // Counts the end of a connection.
    fn end_visit(&self) {
        if let Some(visits) = &self.visits {
            visits.end();
        }
    }
}

// An accepted connection that is ready to be served.
#[derive(Drop)]
struct Guest {
    kind: DoorKind,
    peer: Peer,
    port: u16,
    conn: RealConn,
}

// Counts a connection that can't be served.
fn refuse(visits: &Option<Arc<Visits>>, obstacle: Obstacle) {
    if let Some(visits) = visits {
        visits.refuse(obstacle);
    }
}

// Returns the counts of a worker, for one of its connections; `None` if there are none.
fn share(visits: &Option<Arc<Visits>>) -> Option<Arc<Visits>> {
    match visits {
        Some(visits) => Arc::try_clone(visits).ok(),
        None => None,
    }
}

// Reports, at most once a minute, that connections can't be taken.
fn report_shortage(rt: &HostRuntime, listeners: &Listeners, error: &io::Error) {
    if listeners.shortages.is_due(rt) {
        report_line(
            rt,
            format_args!("connections can't be taken: {error} (for more descriptors: ulimit -n)"),
        );
    }
}

// Waits after a connection that can't be taken: it or others are still there, so the next look would
// follow at once.
fn rest(rt: &HostRuntime) {
    thread::sleep(rt, Duration::from_millis(SHORTAGE_MS));
}

// Returns the next connection; `None` if none waits, or if the system has no room for it. One that
// can't be watched is closed.
fn welcome(
    rt: HostRuntime,
    listeners: &Arc<Listeners>,
    timeout_s: u32,
    visits: &Option<Arc<Visits>>,
) -> io::Result<Option<Guest>>
    ensures fresh { IfOk result (λ came. IfSome came (λ guest. guest.conn ≡ fresh_line)) }
{
    let Visitor {
        kind,
        peer,
        port,
        stream,
    } = match listeners.accept(WAIT_MS) {
        Ok(Some(visitor)) => visitor,
        Ok(None) => return Ok(None),
        Err(_) if listeners.is_stopped() => return Ok(None),
        Err(error) if ends_listening(&error) => return Err(error),
        Err(error) => {
            if lacks_descriptors(&error) {
                refuse(visits, Obstacle::Descriptors);
                report_shortage(&rt, listeners, &error);
            } else {
                refuse(visits, Obstacle::Other);
            }
            rest(&rt);
            return Ok(None);
        }
    };
    let Ok(shared) = Arc::try_clone(listeners) else {
        return Ok(None);
    };
    let silence = Silence::begin(rt, kind, timeout_s, shared);
    match RealConn::open(&rt, stream, silence, share(visits)) {
        Ok(conn) => Ok(Some(Guest {
            kind,
            peer,
            port,
            conn,
        })),
        Err(error) => {
            refuse(visits, Obstacle::Watch);
            report_shortage(&rt, listeners, &error);
            rest(&rt);
            Ok(None)
        }
    }
}

impl Doors for RealDoors {
    type Conn = RealConn;

    ghost hall = { λ d. d };

    // They end too if the server is asked to.
    ghost by_limit = { ⊥ };

    fn next(&mut self) -> Door<RealConn> {
        self.start.step(&self.rt);
        if self.ended {
            return Door::End;
        }
        if self.limit != 0 && self.count >= self.limit as u64 {
            self.ended = true;
            self.listeners.arrivals.add();
            return Door::End;
        }
        if self.may_stop && self.listeners.is_stopped() {
            self.ended = true;
            self.listeners.arrivals.add();
            return Door::End;
        }
        match welcome(self.rt, &self.listeners, self.timeout_s, &self.visits) {
            Ok(
                Some(
                    Guest {
                        kind,
                        peer,
                        port,
                        conn,
                    },
                ),
            ) => {
                self.begin_visit(kind, peer, port);
                self.listeners.enter();
                self.count = self.count.saturating_add(1);
                Door::Came { kind, peer, conn }
            }
            Ok(None) => {
                self.idles = self.idles.saturating_add(1);
                Door::Idle
            }
            Err(error) => {
                report_line(
                    &self.rt,
                    format_args!(
                        "a worker ends, its listener failed: {error} (start satip anew: until then \
                         one connection less is served at a time)"
                    ),
                );
                self.listeners.failures.add(1);
                self.listeners.arrivals.add();
                self.faults = self.faults.saturating_add(1);
                Door::Failed
            }
        }
    }

    fn back(&mut self, conn: RealConn, _kind: DoorKind, _peer: Peer, end: ConnEnd) {
        // Gives the proof the invariant of the doors.
        let _ = &self.count;
        conn.close(self.rt, end);
        self.end_visit();
        self.listeners.leave();
    }
}
