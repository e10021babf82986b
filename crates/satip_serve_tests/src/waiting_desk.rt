//! A desk over devices that wait for each other: workers with one connection each, a pump for each
//! of two front ends, and the ticker.

ghost use Rattle.std.specs.Prelude.{◌≡◌, length, false, map, IfOk};
ghost use Rattle.satip_base.specs.Lists.{Each};
ghost use Rattle.satip_desk.specs.Fresh.{FreshWorker};
ghost use Rattle.satip_desk.specs.Views.{worker_view};
ghost use Rattle.satip_memory_desk.specs.Drawers.{AreNewKits};
ghost use Rattle.satip_world.specs.Halls.{Hall, fresh_hall};
ghost use Rattle.satip_world.specs.Outboxes.{Outbox, fresh_outbox};
ghost use Rattle.satip_memory.specs.Shelves.{empty_shelf};

use crate::counting::{CountingOutlet, LookingPacer, SteppedClock};
use crate::deeds::{Deeds, Gate, OPEN, Place};
use crate::reel::ReelStore;
use crate::waiting::{Piece, WaitingDoors};
use satip_base::{Address, Failed, Text, Want};
use satip_config::Config;
use satip_desk::{Desk, Devices, JobJournal, JobKits, JobsFault, PumpKit, TickKit, WorkerKit};
use satip_fixtures::texts::CONFIGURATION;
use satip_memory::{MemoryConn, MemoryInlet, MemorySink, MemorySource};
use satip_memory_desk::MemoryMoment;
use satip_world::DoorKind;
use std::alloc::Global;
use std::snapshot::Snapshot;

/// How often a pause of a pump or of the ticker looks at least.
const LOOKS: u64 = 100_000;

/// The packets of the first multiplex's recording.
const PACKETS: u64 = 200;

/// A plan of a run: the number of workers, the pieces of the first worker's client and those of
/// each other one's with the kind of its connection, the port to which datagrams of RTP go, the
/// gate that the pumps wait for, and the step of the ticker's clock.
#[derive(Clone, Copy)]
pub struct Plan {
    pub workers: u16,
    pub first: &'static [Piece],
    pub others: &'static [Piece],
    pub kind: DoorKind,
    pub port: u16,
    pub pumps: Gate,
    pub step: u64,
}

type WaitingJobs<'a> = JobKits<
    WaitingDoors<'a>,
    CountingOutlet<'a>,
    LookingPacer<'a>,
    ReelStore,
    SteppedClock<'a>,
>;

/// The kit of a worker of such a desk.
pub type WaitingWorker<'a> = WorkerKit<WaitingDoors<'a>, CountingOutlet<'a>, LookingPacer<'a>>;

fn worker<'a>(
    alloc: Global,
    deeds: &'a Deeds,
    plan: Plan,
    place: Place,
    accepts: u32,
) -> Result<WaitingWorker<'a>, Want>
    ensures hall { IfOk result (λ kit. kit.doors ≡ fresh_hall accepts false) }
    ensures outbox { IfOk result (λ kit. kit.outlet ≡ fresh_outbox) }
{
    let (kind, pieces) = match place {
        Place::First => (DoorKind::Rtsp, plan.first),
        Place::Second => (plan.kind, plan.others),
    };
    Ok(WorkerKit {
        doors: WaitingDoors::make(alloc, deeds, place, kind, pieces, accepts)?,
        outlet: CountingOutlet::new(deeds, plan.port),
        pacer: LookingPacer::new(deeds, 0, OPEN),
        key: [0; 32],
    })
}

fn pump<'a>(
    deeds: &'a Deeds,
    plan: Plan,
) -> PumpKit<ReelStore, CountingOutlet<'a>, LookingPacer<'a>>
    ensures store { result.store ≡ empty_shelf }
    ensures outbox { result.outlet ≡ fresh_outbox }
{
    PumpKit {
        store: ReelStore::new(PACKETS),
        outlet: CountingOutlet::new(deeds, plan.port),
        pacer: LookingPacer::new(deeds, LOOKS, plan.pumps),
    }
}

// The kits of all workers. The first one serves the first client.
fn worker_kits<'a>(
    alloc: Global,
    deeds: &'a Deeds,
    plan: Plan,
    accepts: u32,
) -> Result<Vec<WaitingWorker<'a>>, Want>
    ensures count { IfOk result (λ kits. length kits.items ≡ plan.workers) }
    ensures fresh { IfOk result (λ kits. Each (FreshWorker accepts)
        (map (worker_view (λ (h : Hall). h) (λ (o : Outbox). o)) kits.items)) }
{
    let mut kits = Vec::new(alloc);
    for count in 0..plan.workers {
        let kit = worker(alloc, deeds, plan, place_of(count), accepts)?;
        match kits.push(kit) {
            Ok(()) => {}
            Err(_) => return Err(Want),
        }
    }
    Ok(kits)
}

fn place_of(count: u16) -> Place {
    if count == 0 {
        Place::First
    } else {
        Place::Second
    }
}

fn kits<'a>(
    alloc: Global,
    deeds: &'a Deeds,
    plan: Plan,
    accepts: u32,
) -> Result<WaitingJobs<'a>, Want>
    ensures workers { IfOk result (λ jobs. length jobs.workers.items ≡ plan.workers) }
    ensures pumps { IfOk result (λ jobs. length jobs.pumps.items ≡ 2) }
    ensures new { IfOk result (AreNewKits accepts) }
{
    let workers = worker_kits(alloc, deeds, plan, accepts)?;
    let Ok(pumps) = Vec::from_array(alloc, [pump(deeds, plan), pump(deeds, plan)]) else {
        return Err(Want);
    };
    let tick = TickKit {
        clock: SteppedClock::make(alloc, deeds, plan.step)?,
        outlet: CountingOutlet::new(deeds, plan.port),
        pacer: LookingPacer::new(deeds, LOOKS, OPEN),
    };
    Ok(JobKits {
        workers,
        pumps,
        tick,
    })
}

/// A desk that has one configuration for each name, and the kits for it. It tells no text.
#[derive(Drop)]
pub struct WaitingDesk<'a> {
    alloc: Global,
    deeds: &'a Deeds,
    plan: Plan,
    given: Option<Snapshot<WaitingJobs<'a>>>,
    timed: bool,
    journaled: Vec<u64>,
    faults: u64,
}

impl<'a> WaitingDesk<'a> {
    ghost use Rattle.std.specs.Prelude.{None, false};

    pub fn new(alloc: Global, deeds: &'a Deeds, plan: Plan) -> WaitingDesk<'a>
        ensures given { result.given ≡ None }
        ensures timed { result.timed ≡ false }
    {
        WaitingDesk {
            alloc,
            deeds,
            plan,
            given: None,
            timed: false,
            journaled: Vec::new(alloc),
            faults: 0,
        }
    }
}

impl<'a> Devices for WaitingDesk<'a> {
    type Doors = WaitingDoors<'a>;

    type Outlet = CountingOutlet<'a>;

    type Pacer = LookingPacer<'a>;

    type Store = ReelStore;

    type Clock = SteppedClock<'a>;
}

impl<'a> Desk for WaitingDesk<'a> {
    ghost use Rattle.std.specs.Prelude.{None, false, option_map};
    ghost use Rattle.satip_memory_desk.specs.Drawers.{memory_view};

    type Config = MemorySource;

    type Wire = MemoryConn;

    type Inlet = MemoryInlet;

    type Moment = MemoryMoment;

    type Journal = JobJournal<MemorySink>;

    ghost desk = { λ d. record {
      text = λ _. None;
      faults = d.faults;
      given = option_map (λ kits. memory_view kits.value) d.given;
      handed = record { wire = None; inlet = false; moment = d.timed };
      journaled = d.journaled.items;
    } };

    fn jobs(
        &mut self,
        alloc: Global,
        config: &Config,
        accepts: u32,
    ) -> Result<WaitingJobs<'a>, JobsFault> {
        if config.workers != self.plan.workers || config.fronts.len() != 2 {
            self.faults = self.faults.saturating_add(1);
            return Err(JobsFault::Failed);
        }
        match kits(alloc, self.deeds, self.plan, accepts) {
            Ok(jobs) => {
                self.given = Some(Snapshot::of(&jobs));
                Ok(jobs)
            }
            Err(Want) => Err(JobsFault::Want),
        }
    }

    fn config(&mut self, _name: &Text) -> Result<MemorySource, Failed> {
        let workers = self.plan.workers;
        let Ok(text) = format!(in self.alloc; "workers = {workers}\n{CONFIGURATION}") else {
            self.faults = self.faults.saturating_add(1);
            return Err(Failed);
        };
        match MemorySource::make(self.alloc, text.as_bytes(), &[], &[]) {
            Ok(source) => Ok(source),
            Err(Want) => {
                self.faults = self.faults.saturating_add(1);
                Err(Failed)
            }
        }
    }

    fn dial(&mut self, _to: Address) -> Result<MemoryConn, Failed> {
        self.faults = self.faults.saturating_add(1);
        Err(Failed)
    }

    fn inlet(&mut self) -> Result<MemoryInlet, Failed> {
        self.faults = self.faults.saturating_add(1);
        Err(Failed)
    }

    fn moment(&mut self) -> MemoryMoment {
        self.timed = true;
        MemoryMoment::new(None)
    }

    fn journal(&mut self, job: u64) -> Result<JobJournal<MemorySink>, Failed> {
        if let Ok(sink) = MemorySink::make(self.alloc, &[], 0) {
            if self.journaled.push(job).is_ok() {
                return Ok(JobJournal::new(job, sink));
            }
        }
        self.faults = self.faults.saturating_add(1);
        Err(Failed)
    }
}
