//! Desks over memory, each by its plan.

ghost use Rattle.std.specs.Prelude.{◌≡◌, ◌++◌, ◌∷◌, [], map, true, None};
ghost use Rattle.satip_base.specs.Lists.{Each};
ghost use Rattle.satip_memory.specs.Shelves.{empty_shelf};
ghost use Rattle.satip_desk.specs.Fresh.{FreshWorker};
ghost use Rattle.satip_desk.specs.Views.{worker_view};
ghost use Rattle.satip_desk.specs.Handed.{nothing_handed};
ghost use Rattle.satip_world.specs.Dials.{fresh_dial};
ghost use Rattle.satip_world.specs.Halls.{Hall, fresh_hall};
ghost use Rattle.satip_world.specs.Outboxes.{Outbox, fresh_outbox};

use satip_desk::{JobKits, PumpKit, TickKit, WorkerKit};
use satip_fixtures::CLIENT;
use satip_fixtures::texts::OPTIONS;
use satip_memory::{MemoryClock, MemoryConn, MemoryDoors, MemoryOutlet, MemoryPacer, MemoryStore};
use satip_memory_desk::MemoryDesk;
use satip_world::DoorKind;
use std::alloc::Global;
use std::process::Abort;

/// The kit of a worker over memory.
pub(crate) type MemoryWorker = WorkerKit<MemoryDoors, MemoryOutlet, MemoryPacer>;

/// The pieces that come in on a connection.
pub(crate) type Pieces = &'static [&'static [u8]];

/// The kits that a desk has: those of its workers, of one pump and of the ticker, or none.
#[derive(Clone, Copy)]
pub(crate) enum Kits {
    Missing,
    ForOne,
    ForTwo,
}

/// What a desk has.
#[derive(Clone, Copy)]
pub(crate) struct Plan {
    /// The text of c1.toml.
    pub config: &'static [u8],
    /// Whether c2.toml has that text too. Its first take fails.
    pub second: bool,
    pub kits: Kits,
    /// Whether the desk is out of memory for kits.
    pub refuses: bool,
    /// The number of connections after which the doors of each worker end.
    pub accepts: u32,
    /// The RTSP connections that come to each worker.
    pub connections: &'static [Pieces],
    /// The numbers, from 1, of the calls of its doors that fail.
    pub failing: &'static [u64],
    /// The number of jobs that get a journal.
    pub journals: u64,
    /// The job with a journal that fails, and the number, from 1, of the put that fails there; 0
    /// for none.
    pub failing_job: u64,
    pub failing_put: u64,
}

/// One worker and one front end.
pub(crate) const ONE_WORKER: &[u8] = b"address = \"192.168.1.10\"\n\
    workers = 1\n\
    [[frontend]]\n\
    sources = [1]\n\
    systems = [\"dvbs\", \"dvbs2\"]\n";

/// Two workers and one front end.
pub(crate) const TWO_WORKERS: &[u8] = b"address = \"192.168.1.10\"\n\
    workers = 2\n\
    [[frontend]]\n\
    sources = [1]\n\
    systems = [\"dvbs\", \"dvbs2\"]\n";

/// One worker, to which one connection comes, which asks for the options. Each job has a journal:
/// the program, the worker, the pump and the ticker.
pub(crate) const ONE: Plan = Plan {
    config: ONE_WORKER,
    second: false,
    kits: Kits::ForOne,
    refuses: false,
    accepts: 1,
    connections: &[&[OPTIONS]],
    failing: &[],
    journals: 4,
    failing_job: 0,
    failing_put: 0,
};

/// A desk without kits and journals.
pub(crate) const BARE: Plan = Plan {
    kits: Kits::Missing,
    journals: 0,
    ..ONE
};

// Adds RTSP connections to doors.
fn add(rt: &impl Abort, alloc: Global, doors: &mut MemoryDoors, connections: &[Pieces])
    ensures same { doors.new ≡ doors.old }
{
    for pieces in connections {
        let Ok(conn) = MemoryConn::make(alloc, pieces, &[], &[], 0) else {
            rt.panic("out of memory");
        };
        doors
            .add(DoorKind::Rtsp, CLIENT, conn)
            .expect(rt, "out of memory");
    }
}

// Returns the doors of a worker, by which the connections of a plan come.
fn make_doors(rt: &impl Abort, alloc: Global, plan: Plan) -> MemoryDoors
    ensures hall { result ≡ fresh_hall plan.accepts true }
{
    let Ok(mut doors) = MemoryDoors::make(alloc, plan.accepts, &[], plan.failing) else {
        rt.panic("out of memory");
    };
    add(rt, alloc, &mut doors, plan.connections);
    doors
}

fn make_outlet(rt: &impl Abort, alloc: Global) -> MemoryOutlet
    ensures outbox { result ≡ fresh_outbox }
{
    match MemoryOutlet::make(alloc, &[]) {
        Ok(outlet) => outlet,
        Err(_) => rt.panic("out of memory"),
    }
}

fn make_store(rt: &impl Abort, alloc: Global) -> MemoryStore
    ensures shelf { result ≡ empty_shelf }
{
    match MemoryStore::make(alloc, &[]) {
        Ok(store) => store,
        Err(_) => rt.panic("out of memory"),
    }
}

// Returns a clock that shows a second.
fn make_clock(rt: &impl Abort, alloc: Global) -> MemoryClock
    ensures dial { result ≡ fresh_dial true }
{
    match MemoryClock::make(alloc, &[1000]) {
        Ok(clock) => clock,
        Err(_) => rt.panic("out of memory"),
    }
}

fn make_worker(rt: &impl Abort, alloc: Global, plan: Plan) -> MemoryWorker
    ensures hall { result.doors ≡ fresh_hall plan.accepts true }
    ensures outbox { result.outlet ≡ fresh_outbox }
{
    WorkerKit {
        doors: make_doors(rt, alloc, plan),
        outlet: make_outlet(rt, alloc),
        pacer: MemoryPacer::new(),
        key: [7; 32],
    }
}

// Returns the kit of a pump without recordings.
fn make_pump(rt: &impl Abort, alloc: Global) -> PumpKit<MemoryStore, MemoryOutlet, MemoryPacer>
    ensures store { result.store ≡ empty_shelf }
    ensures outbox { result.outlet ≡ fresh_outbox }
{
    PumpKit {
        store: make_store(rt, alloc),
        outlet: make_outlet(rt, alloc),
        pacer: MemoryPacer::new(),
    }
}

fn make_ticker(rt: &impl Abort, alloc: Global) -> TickKit<MemoryClock, MemoryOutlet, MemoryPacer>
    ensures dial { result.clock ≡ fresh_dial true }
    ensures outbox { result.outlet ≡ fresh_outbox }
{
    TickKit {
        clock: make_clock(rt, alloc),
        outlet: make_outlet(rt, alloc),
        pacer: MemoryPacer::new(),
    }
}

// Appends the kit of a worker.
fn push(rt: &impl Abort, kits: &mut Vec<MemoryWorker>, kit: MemoryWorker)
    ensures items { kits.new.items ≡ kits.old.items ++ kit ∷ [] }
{
    let Ok(()) = kits.push(kit) else {
        rt.panic("out of memory");
    };
}

fn make_one(rt: &impl Abort, alloc: Global, plan: Plan) -> Vec<MemoryWorker>
    ensures fresh { Each (FreshWorker plan.accepts)
        (map (worker_view (λ (h : Hall). h) (λ (o : Outbox). o)) result.items) }
{
    let mut kits = Vec::new(alloc);
    push(rt, &mut kits, make_worker(rt, alloc, plan));
    kits
}

fn make_two(rt: &impl Abort, alloc: Global, plan: Plan) -> Vec<MemoryWorker>
    ensures fresh { Each (FreshWorker plan.accepts)
        (map (worker_view (λ (h : Hall). h) (λ (o : Outbox). o)) result.items) }
{
    let mut kits = Vec::new(alloc);
    push(rt, &mut kits, make_worker(rt, alloc, plan));
    push(rt, &mut kits, make_worker(rt, alloc, plan));
    kits
}

// Lays the kits of these workers, of one pump and of the ticker on a desk.
fn lay(
    rt: &impl Abort,
    alloc: Global,
    desk: &mut MemoryDesk,
    accepts: u32,
    workers: Vec<MemoryWorker>,
)
    requires fresh { Each (FreshWorker accepts)
        (map (worker_view (λ (h : Hall). h) (λ (o : Outbox). o)) workers.items) }
    ensures given { desk.new.given ≡ desk.old.given }
    ensures handed { desk.new.handed ≡ desk.old.handed }
{
    let mut pumps = Vec::new(alloc);
    let Ok(()) = pumps.push(make_pump(rt, alloc)) else {
        rt.panic("out of memory");
    };
    let tick = make_ticker(rt, alloc);
    desk.lay(
        accepts,
        JobKits {
            workers,
            pumps,
            tick,
        },
    );
}

// Lays the kits of a plan on a desk.
fn lay_kits(rt: &impl Abort, alloc: Global, desk: &mut MemoryDesk, plan: Plan)
    ensures given { desk.new.given ≡ desk.old.given }
    ensures handed { desk.new.handed ≡ desk.old.handed }
{
    match plan.kits {
        Kits::Missing => {}
        Kits::ForOne => lay(rt, alloc, desk, plan.accepts, make_one(rt, alloc, plan)),
        Kits::ForTwo => lay(rt, alloc, desk, plan.accepts, make_two(rt, alloc, plan)),
    }
}

// Adds the configurations of a plan to a desk.
fn add_texts(rt: &impl Abort, desk: &mut MemoryDesk, plan: Plan)
    ensures given { desk.new.given ≡ desk.old.given }
    ensures handed { desk.new.handed ≡ desk.old.handed }
{
    desk.add("c1.toml", plan.config, &[])
        .expect(rt, "out of memory");
    if plan.second {
        desk.add("c2.toml", plan.config, &[1])
            .expect(rt, "out of memory");
    }
}

/// Creates the desk of a plan.
pub(crate) fn make_desk(rt: &impl Abort, alloc: Global, plan: Plan) -> MemoryDesk
    ensures new { result.given ≡ None }
    ensures client { result.handed ≡ nothing_handed }
{
    let mut desk = MemoryDesk::make(alloc, 0);
    add_texts(rt, &mut desk, plan);
    lay_kits(rt, alloc, &mut desk, plan);
    desk.open_journals(plan.journals, plan.failing_job, plan.failing_put);
    desk
}
