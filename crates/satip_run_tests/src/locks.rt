//! Outlets that count, and a connection that notes what left before a reply.
ghost use Rattle.std.specs.Prelude.{◌≡◌, false};

use crate::checks::check;
use crate::given::given;
use satip_base::{Address, Out, Put};
use satip_desk::{PumpKit, TickKit, WorkerKit};
use satip_fixtures::texts::{SETUP, joined, repeated};
use satip_fixtures::{CLIENT, packet_bytes};
use satip_memory::{MemoryClock, MemoryConn, MemoryDoors, MemoryOutlet, MemoryPacer, MemoryStore};
use satip_plain::{Answer, Event, Lot, Service, ServiceFault};
use satip_pump::{Batch, JobEnd, run_pump, run_ticker};
use satip_solo::Solo;
use satip_solo::connections::{KEY, PLAY};
use satip_solo::setting::{give, letters, play, play_of, set_up, solo};
use satip_worker::{Draws, Room, WorkerEnd, run_worker, serve_connection};
use satip_world::{Conn, ConnEnd, DoorKind, Outlet, Received};
use std::alloc::Global;
use std::process::Abort;
use std::sync::Wait;
use std::sync::atomic::{AtomicU64, Ordering};

const TEARDOWN: &[u8] = b"TEARDOWN rtsp://192.168.1.10/stream=1 RTSP/1.0\r\n\
    CSeq: 3\r\n\
    Session: 000000010000000a\r\n\r\n";

// How often the outlets of one socket were locked and unlocked, how many datagrams they were given,
// and how many of them while not exactly one lock was held. And the same of the calls of a service.
#[derive(Drop)]
struct Tally {
    locks: AtomicU64,
    unlocks: AtomicU64,
    sent: AtomicU64,
    astray: AtomicU64,
    calls: AtomicU64,
    unlocked_calls: AtomicU64,
}

impl Tally {
    fn new() -> Tally {
        Tally {
            locks: AtomicU64::new(0),
            unlocks: AtomicU64::new(0),
            sent: AtomicU64::new(0),
            astray: AtomicU64::new(0),
            calls: AtomicU64::new(0),
            unlocked_calls: AtomicU64::new(0),
        }
    }

    fn locks(&self) -> u64 {
        self.locks.load(Ordering::SeqCst)
    }

    fn unlocks(&self) -> u64 {
        self.unlocks.load(Ordering::SeqCst)
    }

    fn sent(&self) -> u64 {
        self.sent.load(Ordering::SeqCst)
    }

    fn astray(&self) -> u64 {
        self.astray.load(Ordering::SeqCst)
    }

    // The locks, the unlocks, the datagrams, and those that were sent without one lock.
    fn counts(&self) -> [u64; 4] {
        [self.locks(), self.unlocks(), self.sent(), self.astray()]
    }

    // Whether exactly one lock is held.
    fn is_locked(&self) -> bool {
        self.locks() == self.unlocks().wrapping_add(1)
    }

    // Counts a call of the service.
    fn count_call(&self) {
        self.calls.fetch_add(1, Ordering::SeqCst);
        if !self.is_locked() {
            self.unlocked_calls.fetch_add(1, Ordering::SeqCst);
        }
    }

    // The calls of the service, and those that were made without one lock.
    fn call_counts(&self) -> [u64; 2] {
        [
            self.calls.load(Ordering::SeqCst),
            self.unlocked_calls.load(Ordering::SeqCst),
        ]
    }
}

// A service whose calls and bursts are counted.
#[derive(Drop)]
struct Counted<'a, S: Service + Drop> {
    service: S,
    tally: &'a Tally,
}

impl<'a, S: Service + Drop> Service for Counted<'a, S> {
    type Room = S::Room;

    ghost setting = { λ c. S.setting c.service };

    ghost legal = { λ c h. S.legal c h };

    ghost known = { λ c. S.known c.service };

    ghost may_want = { λ c. S.may_want c.service };

    ghost same = { λ c d. S.same c.service d.service };

    ghost is_legal = { λ c. S.is_legal c.service };

    ghost is_short = { λ c. S.is_short c.service };

    ghost same_self = { λ c. S.same_self c.service };

    ghost same_then = { λ c d e a b. S.same_then c.service d.service e.service a b };

    ghost same_setting = { λ c d a. S.same_setting c.service d.service a };

    ghost same_want = { λ c d a. S.same_want c.service d.service a };

    fn room() -> S::Room {
        S::room()
    }

    fn call(&mut self, event: &Event, out: &mut Out) -> Result<Answer, ServiceFault> {
        self.tally.count_call();
        self.service.call(event, out)
    }

    fn burst<L: Lot>(
        &mut self,
        lot: &mut L,
        room: &mut S::Room,
        out: &mut Out,
    ) -> Result<(), ServiceFault> {
        self.tally.count_call();
        self.service.burst(lot, room, out)
    }
}

#[derive(Drop)]
struct CountedOutlet<'a> {
    outlet: MemoryOutlet,
    tally: &'a Tally,
}

impl<'a> Outlet for CountedOutlet<'a> {
    ghost tells = { Unit {0} };

    ghost outbox = { λ o. o.outlet };

    fn lock(&mut self) {
        self.tally.locks.fetch_add(1, Ordering::SeqCst);
        self.outlet.lock();
    }

    fn unlock(&mut self) {
        self.tally.unlocks.fetch_add(1, Ordering::SeqCst);
        self.outlet.unlock();
    }

    fn send(&mut self, to: Address, bytes: &[u8]) -> Put {
        if !self.tally.is_locked() {
            self.tally.astray.fetch_add(1, Ordering::SeqCst);
        }
        self.tally.sent.fetch_add(1, Ordering::SeqCst);
        self.outlet.send(to, bytes)
    }
}

fn outlet<'a>(rt: &impl Abort, alloc: Global, tally: &'a Tally) -> CountedOutlet<'a>
    ensures free { result.outlet.held ≡ false }
{
    let Ok(outlet) = MemoryOutlet::make(alloc, &[]) else {
        panic!(rt; "out of memory");
    };
    CountedOutlet { outlet, tally }
}

// Doors by which one connection comes, which sets up and plays.
fn doors(rt: &impl Abort, alloc: Global) -> MemoryDoors {
    let text = given(rt, joined(alloc, &[SETUP, PLAY]));
    let conn = MemoryConn::make(alloc, &[&text], &[], &[], 0).expect(rt, "out of memory");
    let mut doors = MemoryDoors::make(alloc, 1, &[], &[]).expect(rt, "out of memory");
    doors
        .add(DoorKind::Rtsp, CLIENT, conn)
        .expect(rt, "out of memory");
    doors
}

// A worker with one connection.
fn work<R: Wait + Sync + Abort>(
    rt: &R,
    alloc: Global,
    solo: &mut Counted<'_, Solo>,
    tally: &Tally,
) -> WorkerEnd {
    let mut room = Room::make(alloc).expect(rt, "out of memory");
    let mut kit = WorkerKit {
        doors: doors(rt, alloc),
        outlet: outlet(rt, alloc, tally),
        pacer: MemoryPacer::new(),
        key: KEY,
    };
    run_worker(rt, solo, &mut kit, 0, &mut room)
}

// A store with a recording of this number of packets.
fn store(rt: &impl Abort, alloc: Global, packets: usize) -> MemoryStore {
    let text = given(
        rt,
        repeated(alloc, &[(packet_bytes(16).as_slice(), packets)]),
    );
    let mut store = MemoryStore::make(alloc, &[]).expect(rt, "out of memory");
    store.add(1, &text, &[], &[]).expect(rt, "out of memory");
    store
}

// A pump with a recording of this number of packets.
fn pump<R: Wait + Sync + Abort>(
    rt: &R,
    alloc: Global,
    solo: &mut Counted<'_, Solo>,
    tally: &Tally,
    packets: usize,
) -> JobEnd {
    let mut out = Out::make(alloc).expect(rt, "out of memory");
    let mut batch = Batch::make(alloc).expect(rt, "out of memory");
    let mut kit = PumpKit {
        store: store(rt, alloc, packets),
        outlet: outlet(rt, alloc, tally),
        pacer: MemoryPacer::new(),
    };
    run_pump(rt, solo, 1, &mut kit, &mut out, &mut batch)
}

// A ticker, one second after the start.
fn tick<R: Wait + Sync + Abort>(
    rt: &R,
    alloc: Global,
    solo: &mut Counted<'_, Solo>,
    tally: &Tally,
) -> JobEnd {
    let mut out = Out::make(alloc).expect(rt, "out of memory");
    let mut kit = TickKit {
        clock: MemoryClock::make(alloc, &[1000]).expect(rt, "out of memory"),
        outlet: outlet(rt, alloc, tally),
        pacer: MemoryPacer::new(),
    };
    run_ticker(rt, solo, &mut kit, &mut out)
}

// Runs the worker, the pump and the ticker, one after another, and asserts their ends.
fn run_jobs<R: Wait + Sync + Abort>(
    rt: &R,
    alloc: Global,
    solo: &mut Counted<'_, Solo>,
    tally: &Tally,
) {
    check(
        rt,
        "worker",
        &work(rt, alloc, solo, tally),
        &WorkerEnd::Closed,
    );
    check(
        rt,
        "pump",
        &pump(rt, alloc, solo, tally, 7),
        &JobEnd::Stopped,
    );
    check(
        rt,
        "ticker",
        &tick(rt, alloc, solo, tally),
        &JobEnd::Stopped,
    );
}

// Two requests, four calls of the pump and a tick, each executed under a separate lock; the seven
// packets leave as one datagram, and the tick sends a report.
#[test]
fn three_jobs_lock_for_each_event(rt: HostRuntime) {
    let alloc = rt.alloc();
    let tally = Tally::new();
    let mut counted = Counted {
        service: given(&rt, solo(alloc, Some(11))),
        tally: &tally,
    };
    run_jobs(&rt, alloc, &mut counted, &tally);
    let kinds = given(&rt, letters(alloc, &counted.service));
    check(
        &rt,
        "kinds",
        &kinds.as_slice(),
        &b"RRAPPPPPPPESAT".as_slice(),
    );
    check(&rt, "counts", &tally.counts(), &[7, 7, 2, 0]);
    check(&rt, "calls", &tally.call_counts(), &[7, 0]);
}

// Sets up and plays this number of sessions of one multiplex.
fn play_all(rt: &impl Abort, alloc: Global, solo: &mut Solo, sessions: u16) {
    let mut out = Out::make(alloc).expect(rt, "out of memory");
    for number in 1..=sessions {
        check(rt, "set up", &given(rt, set_up(solo, &mut out)), &200);
        let played = given(rt, play_of(solo, number, &mut out));
        check(rt, "played", &played, &200);
    }
}

// Runs a pump with 14 packets for this number of sessions. Asserts how many calls it made, each
// under one lock, and how many datagrams left.
fn check_pump<R: Wait + Sync + Abort>(
    rt: &R,
    alloc: Global,
    sessions: u16,
    calls: u64,
    datagrams: u64,
) {
    let mut solo = given(rt, solo(alloc, Some(2 * sessions as u64 + 16)));
    play_all(rt, alloc, &mut solo, sessions);
    let tally = Tally::new();
    let mut counted = Counted {
        service: solo,
        tally: &tally,
    };
    let end = pump(rt, alloc, &mut counted, &tally, 14);
    check(rt, "pump", &end, &JobEnd::Stopped);
    check(rt, "calls", &tally.call_counts(), &[calls, 0]);
    check(rt, "counts", &tally.counts(), &[calls, calls, datagrams, 0]);
}

// The seventh packet has a datagram for each session, and so has the last. Two questions and the
// end are the other calls.
#[test]
fn a_packet_with_four_datagrams_ends_its_burst(rt: HostRuntime) {
    check_pump(&rt, rt.alloc(), 3, 4, 6);
    check_pump(&rt, rt.alloc(), 4, 5, 8);
}

// A connection that notes how many datagrams had left at its last send.
#[derive(Drop)]
struct NotingConn<'a> {
    conn: MemoryConn,
    tally: &'a Tally,
    before: u64,
}

impl<'a> Conn for NotingConn<'a> {
    ghost tells = { Unit {0} };

    ghost line = { λ c. c.conn };

    fn receive(&mut self, buf: &mut [u8]) -> Received {
        self.conn.receive(buf)
    }

    fn send(&mut self, bytes: &[u8]) -> Put {
        self.before = self.tally.sent();
        self.conn.send(bytes)
    }
}

// Sets up and plays, and gives three packets, which are held: the statuses of both replies.
fn play_three(rt: &impl Abort, alloc: Global, solo: &mut Solo) -> [u16; 2] {
    let mut out = Out::make(alloc).expect(rt, "out of memory");
    let created = given(rt, set_up(solo, &mut out));
    let played = given(rt, play(solo, &mut out));
    for _ in 0..3u8 {
        let _answer = given(rt, give(solo, &mut out));
    }
    [created, played]
}

// Serves a connection, and tallies what leaves.
fn serve<R: Wait + Sync + Abort>(
    rt: &R,
    alloc: Global,
    solo: &mut Solo,
    conn: &mut NotingConn,
    tally: &Tally,
) -> ConnEnd {
    let mut room = Room::make(alloc).expect(rt, "out of memory");
    let mut outlet = outlet(rt, alloc, tally);
    let mut draws = Draws::make(&KEY, 0);
    let mut pacer = MemoryPacer::new();
    serve_connection(
        rt,
        solo,
        DoorKind::Rtsp,
        CLIENT,
        conn,
        &mut outlet,
        &mut pacer,
        &mut draws,
        &mut room,
    )
}

// Serves a connection with a TEARDOWN: how it ended, and how many datagrams had left at its reply.
fn tear_down<R: Wait + Sync + Abort>(
    rt: &R,
    alloc: Global,
    solo: &mut Solo,
    tally: &Tally,
) -> (ConnEnd, u64) {
    let mut conn = NotingConn {
        conn: MemoryConn::make(alloc, &[TEARDOWN], &[], &[], 0).expect(rt, "out of memory"),
        tally,
        before: 0,
    };
    let end = serve(rt, alloc, solo, &mut conn, tally);
    (end, conn.before)
}

// The packets that a session holds leave before the reply to its TEARDOWN.
#[test]
fn a_reply_follows_the_datagrams_of_its_request(rt: HostRuntime) {
    let alloc = rt.alloc();
    let tally = Tally::new();
    let mut solo = given(&rt, solo(alloc, None));
    check(
        &rt,
        "statuses",
        &play_three(&rt, alloc, &mut solo),
        &[200, 200],
    );
    let (end, before) = tear_down(&rt, alloc, &mut solo, &tally);
    check(&rt, "end", &end, &ConnEnd::Done);
    check(&rt, "datagrams", &[before, tally.sent()], &[1, 1]);
}
