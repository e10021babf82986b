//! Datagrams over UDP sockets, one event's after the other's.

ghost use Rattle.std.specs.Prelude.{◌≡◌};

use crate::destinations::Destinations;
use crate::sent::SentCounts;
use satip_base::{Address, Put};
use satip_world::Outlet;
use std::io;
use std::marker::Model;
use std::sync::{Arc, Condvar, Mutex, Wait};

/// The UDP sockets that all outlets of a server share. One outlet at a time executes an event and
/// sends its datagrams.
#[derive(Drop)]
pub struct SharedSocket {
    // The sockets; `None` while an outlet has them.
    free: Mutex<Option<Destinations>>,
    freed: Condvar,
}

impl SharedSocket {
    /// Binds a UDP socket at an IPv4 address and any port. Each destination gets a connected socket
    /// at that address when a datagram is first sent to it. At most 128 destinations have one: the
    /// least recently used is closed for a new one. A destination that can get none is sent to from
    /// the first socket.
    pub fn bind(rt: HostRuntime, ip: u32) -> io::Result<SharedSocket> {
        SharedSocket::counting(rt, ip, None)
    }

    /// Binds one as `bind` does. Datagrams are counted in `counts`, if there are some.
    pub fn counting(
        rt: HostRuntime,
        ip: u32,
        counts: Option<Arc<SentCounts>>,
    ) -> io::Result<SharedSocket> {
        Ok(SharedSocket {
            free: Mutex::new(Some(Destinations::bind(rt, ip, counts)?)),
            freed: Condvar::new(),
        })
    }

    // Waits until no outlet has the sockets, and takes them.
    fn take<R: Wait>(&self, rt: &R) -> Destinations {
        let free = self.free.lock(rt);
        let mut free = self.freed.wait_while(rt, free, |free| free.is_none());
        free.take().unwrap()
    }
}

/// An outlet at the shared UDP sockets. A send fails if the socket doesn't take the datagram at
/// once, or refuses it twice. Between `lock` and `unlock` no other outlet of the sockets is locked.
#[derive(Drop)]
pub struct RealOutlet<R: Wait + Drop> {
    rt: R,
    shared: Arc<SharedSocket>,
    faults: u64,
    // The sockets, while it holds the lock.
    taken: Option<Destinations>,
}

impl<R: Wait + Drop> Model for RealOutlet<R> {
    ghost use Rattle.std.specs.Prelude.{[], is_some};
    ghost use Rattle.satip_world.specs.Outboxes.{Outbox};

    ghost Value = { Outbox };

    ghost view = { λ o. record { sent = []; faults = o.faults; held = is_some o.taken } };
}

impl<R: Wait + Drop> RealOutlet<R> {
    ghost use Rattle.satip_world.specs.Outboxes.{fresh_outbox};

    /// Creates an outlet that has sent nothing yet.
    pub fn new(rt: R, shared: Arc<SharedSocket>) -> RealOutlet<R>
        ensures fresh { result ≡ fresh_outbox }
    {
        RealOutlet {
            rt,
            shared,
            faults: 0,
            taken: None,
        }
    }
}

impl<R: Wait + Drop> Outlet for RealOutlet<R> {
    ghost tells = { ⊥ };

    ghost outbox = { λ o. o };

    fn lock(&mut self) {
        self.taken = Some(self.shared.take(&self.rt));
    }

    // Reports after the sockets are put back, since standard error may wait for its reader.
    fn unlock(&mut self) {
        let Some(mut destinations) = self.taken.take() else {
            return;
        };
        let due = destinations.due();
        *self.shared.free.lock(&self.rt) = Some(destinations);
        self.shared.freed.notify_one();
        if let Some(refusals) = due {
            refusals.report();
        }
    }

    fn send(&mut self, to: Address, bytes: &[u8]) -> Put {
        let Some(destinations) = &mut self.taken else {
            unreachable!()
        };
        if destinations.send(to, bytes) {
            return Put::Whole;
        }
        self.faults = self.faults.saturating_add(1);
        Put::Failed
    }
}
