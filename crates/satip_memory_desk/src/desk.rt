//! A desk over memory.

ghost use Rattle.std.specs.Prelude.{◌≡◌, ◌∷◌, ◌++◌, [], None, Some, length, map, option_map, IfOk, IfSome, MatchOption, OnOk, OnErr};
ghost use Rattle.satip_base.specs.Streams.{fresh_drain};
ghost use Rattle.std.specs.Option.{option_copied};
ghost use Rattle.std.specs.List.{find};
ghost use Rattle.std.specs.Str.{bytes_eq};
ghost use Rattle.satip_world.specs.Inboxes.{fresh_inbox};
ghost use Rattle.satip_world.specs.Lines.{fresh_line};
ghost use Rattle.satip_world.specs.Recordings.{IsStarted};
ghost use Rattle.satip_memory_desk.specs.Cabinets.{text_in};
ghost use Rattle.satip_memory_desk.specs.Drawers.{row_of, AreNewKits, given_view};

use crate::moment::MemoryMoment;
use satip_base::{Address, Failed, Text, Want};
use satip_desk::{Desk, Devices, JobJournal, JobKits, JobsFault};
use satip_memory::{
    MemoryClock, MemoryConn, MemoryDoors, MemoryInlet, MemoryOutlet, MemoryPacer, MemorySink,
    MemorySource, MemoryStore,
};
use satip_tune::Config;
use std::alloc::Global;
use std::marker::Model;
use std::snapshot::Snapshot;

// A name, the text of its configuration, and which takes of it fail.
#[derive(Drop)]
struct Drawer {
    name: Vec<u8>,
    text: Vec<u8>,
    failing: Vec<u64>,
}

/// The kits of jobs over memory.
pub type MemoryJobs = JobKits<MemoryDoors, MemoryOutlet, MemoryPacer, MemoryStore, MemoryClock>;

// Kits whose doors end after `accepts` connections.
#[derive(Drop)]
struct Laid {
    accepts: u32,
    jobs: MemoryJobs,
}

// The devices that were given to a client.
#[derive(Clone, Copy)]
struct Lent {
    wire: Option<Address>,
    inlet: bool,
    moment: bool,
}

// The number of jobs that get journals, the put that fails, and the jobs that got one.
#[derive(Drop)]
struct Journals {
    jobs: u64,
    failing_job: u64,
    failing_put: u64,
    given: Vec<u64>,
}

/// A desk of given texts, kits, client's devices and journals.
#[derive(Drop)]
pub struct MemoryDesk {
    alloc: Global,
    drawers: Vec<Drawer>,
    laid: Option<Laid>,
    given: Option<Snapshot<MemoryJobs>>,
    wire: Option<MemoryConn>,
    inlet: Option<MemoryInlet>,
    clock: Option<MemoryClock>,
    lent: Lent,
    journals: Journals,
    failing: u64,
    faults: u64,
}

impl Model for MemoryDesk {
    ghost use Rattle.satip_memory_desk.specs.Cabinets.{Cabinet};
    ghost use Rattle.std.specs.Prelude.{map, option_map};
    ghost use Rattle.satip_memory_desk.specs.Drawers.{row_of};
    ghost use Rattle.std.specs.Prelude.{◌≡◌, [], IfSome};
    ghost use Rattle.satip_world.specs.Inboxes.{fresh_inbox};
    ghost use Rattle.satip_world.specs.Lines.{fresh_line};
    ghost use Rattle.satip_memory_desk.specs.Drawers.{AreNewKits, given_kits};

    ghost Value = { Cabinet };

    ghost view = { λ d. record {
      texts = map row_of d.drawers.items;
      failing_takes = map (λ drawer. drawer.failing.items) d.drawers.items;
      laid = option_map (λ laid. laid.accepts) d.laid;
      given = option_map (λ kits. given_kits kits.value) d.given;
      wire = d.wire;
      inlet = d.inlet;
      clock = d.clock;
      handed = record { wire = d.lent.wire; inlet = d.lent.inlet; moment = d.lent.moment };
      journals = d.journals.jobs;
      journaled = d.journals.given.items;
      failing = d.failing;
      faults = d.faults;
    } };

    ghost invariant = { λ d. IfSome d.laid (λ laid. AreNewKits laid.accepts laid.jobs)
        × IfSome d.wire (λ line. line ≡ fresh_line)
        × IfSome d.inlet (λ inbox. inbox ≡ fresh_inbox inbox.port)
        × IfSome d.clock (λ dial. dial.readings ≡ []) };
}

impl MemoryDesk {
    ghost use Rattle.satip_memory_desk.specs.Cabinets.{empty_cabinet};
    ghost use Rattle.satip_desk.specs.Handed.{nothing_handed};

    /// Creates a desk without texts. The first `failing` calls fail, and so does each call with a
    /// name that has no text.
    pub fn make(alloc: Global, failing: u64) -> MemoryDesk
        ensures empty { result ≡ empty_cabinet failing }
    {
        MemoryDesk {
            alloc,
            drawers: Vec::new(alloc),
            laid: None,
            given: None,
            wire: None,
            inlet: None,
            clock: None,
            lent: Lent {
                wire: None,
                inlet: false,
                moment: false,
            },
            journals: Journals {
                jobs: 0,
                failing_job: 0,
                failing_put: 0,
                given: Vec::new(alloc),
            },
            failing,
            faults: 0,
        }
    }

    /// Puts in the devices for a client. A desk without a connection or an inlet fails if it is
    /// asked for it. One without a clock gives one that shows 0.
    pub fn lend(
        &mut self,
        wire: Option<MemoryConn>,
        inlet: Option<MemoryInlet>,
        clock: Option<MemoryClock>,
    )
        requires wire { IfSome wire (λ line. line ≡ fresh_line) }
        requires inlet { IfSome inlet (λ inbox. inbox ≡ fresh_inbox inbox.port) }
        requires clock { IfSome clock (λ dial. dial.readings ≡ []) }
        ensures lent { self.new
            ≡ record self.old { wire = wire; inlet = inlet; clock = clock } }
    {
        self.wire = wire;
        self.inlet = inlet;
        self.clock = clock;
    }

    /// Lays kits with which nothing was done, whose doors end after `accepts` connections. The desk
    /// gives them only for this `accepts`, and for a configuration with the same numbers of workers
    /// and front ends.
    pub fn lay(&mut self, accepts: u32, jobs: MemoryJobs)
        requires new { AreNewKits accepts jobs }
        ensures laid { self.new ≡ record self.old { laid = Some accepts } }
    {
        self.laid = Some(Laid { accepts, jobs });
    }

    /// Gives journals to the jobs below `jobs`. In the journal of `failing_job` the put with the
    /// number `failing_put`, from 1, fails and passes five bytes at most.
    pub fn open_journals(&mut self, jobs: u64, failing_job: u64, failing_put: u64)
        ensures opened { self.new ≡ record self.old { journals = jobs } }
    {
        self.journals.jobs = jobs;
        self.journals.failing_job = failing_job;
        self.journals.failing_put = failing_put;
    }

    // Makes the journal of a job. Returns None if it gets none, or if it is out of memory.
    fn make_journal(&mut self, job: u64) -> Option<MemorySink>
        ensures sink { IfSome result (λ sink. sink ≡ fresh_drain) }
        ensures journaled { MatchOption result (self.new ≡ self.old) (λ _. self.new
            ≡ record self.old { journaled = self.old.journaled ++ job ∷ [] }) }
    {
        if job >= self.journals.jobs {
            return None;
        }
        let failing = if job == self.journals.failing_job {
            self.journals.failing_put
        } else {
            0
        };
        let Ok(sink) = MemorySink::make(self.alloc, &[failing], 5) else {
            return None;
        };
        match self.journals.given.push(job) {
            Ok(()) => Some(sink),
            Err(_) => None,
        }
    }

    /// Begins again with its client: no device counts as given.
    pub fn renew(&mut self)
        ensures renewed { self.new ≡ record self.old { handed = nothing_handed } }
    {
        self.lent = Lent {
            wire: None,
            inlet: false,
            moment: false,
        };
    }

    /// Adds the text of a name, instead of one that it has. Its takes with a number, from 1, in
    /// `failing` fail.
    pub fn add(&mut self, name: &str, text: &[u8], failing: &[u64]) -> Result<(), Want>
        ensures added { OnOk result (self.new.texts ≡ (name.now, text.now) ∷ self.old.texts) }
        ensures takes { OnOk result (self.new.failing_takes
            ≡ failing.now ∷ self.old.failing_takes) }
        ensures same { OnErr result (self.new ≡ self.old) }
        ensures laid { self.new.laid ≡ self.old.laid }
        ensures failing { self.new.failing ≡ self.old.failing }
        ensures faults { self.new.faults ≡ self.old.faults }
        ensures given { self.new.given ≡ self.old.given }
        ensures wire { self.new.wire ≡ self.old.wire }
        ensures inlet { self.new.inlet ≡ self.old.inlet }
        ensures clock { self.new.clock ≡ self.old.clock }
        ensures handed { self.new.handed ≡ self.old.handed }
        ensures journals { self.new.journals ≡ self.old.journals }
        ensures journaled { self.new.journaled ≡ self.old.journaled }
    {
        let (Ok(name), Ok(text), Ok(failing)) = (
            Vec::from_slice(self.alloc, name.as_bytes()),
            Vec::from_slice(self.alloc, text),
            Vec::from_slice(self.alloc, failing),
        ) else {
            return Err(Want);
        };
        let drawer = Drawer {
            name,
            text,
            failing,
        };
        match self.drawers.insert(0, drawer) {
            Ok(()) => Ok(()),
            Err(_) => Err(Want),
        }
    }
}

// Opens the text of a name from its beginning. Returns None if there is none, or if it is out of
// memory.
fn open(alloc: Global, drawers: &[Drawer], name: &[u8]) -> Option<MemorySource>
    ensures started { IfSome result (λ source. IsStarted (Unit {0}) source
        (text_in (map row_of drawers.now) name.now)) }
    ensures untaken { IfSome result (λ source. source.taken ≡ 0) }
{
    let Some(drawer) = find_drawer(drawers, name) else {
        return None;
    };
    match MemorySource::make(alloc, &drawer.text, &[], &drawer.failing) {
        Ok(source) => Some(source),
        Err(_) => None,
    }
}

fn find_drawer<'d>(drawers: &'d [Drawer], name: &[u8]) -> Option<&'d Drawer>
    ensures found { option_copied result ≡ find (λ drawer. bytes_eq drawer.name.items name.now)
        drawers.now }
{
    drawers.iter().find(|drawer| drawer.name.as_slice() == name)
}

// Takes out the kits that were laid. Returns None, and drops them, if they are for another
// `accepts` or other numbers of workers and pumps.
fn take_kits(
    laid: &mut Option<Laid>,
    accepts: u32,
    workers: usize,
    pumps: usize,
) -> Option<MemoryJobs>
    requires new { IfSome laid.old (λ l. AreNewKits l.accepts l.jobs) }
    ensures empty { laid.new ≡ None }
    ensures workers { IfSome result (λ jobs. length jobs.workers.items ≡ workers) }
    ensures pumps { IfSome result (λ jobs. length jobs.pumps.items ≡ pumps) }
    ensures new { IfSome result (AreNewKits accepts) }
{
    let Some(kits) = laid.take() else {
        return None;
    };
    if kits.accepts != accepts {
        return None;
    }
    if kits.jobs.workers.len() != workers {
        return None;
    }
    if kits.jobs.pumps.len() != pumps {
        return None;
    }
    Some(kits.jobs)
}

impl Devices for MemoryDesk {
    type Doors = MemoryDoors;

    type Outlet = MemoryOutlet;

    type Pacer = MemoryPacer;

    type Store = MemoryStore;

    type Clock = MemoryClock;
}

impl Desk for MemoryDesk {
    type Config = MemorySource;

    type Wire = MemoryConn;

    type Inlet = MemoryInlet;

    type Moment = MemoryMoment;

    type Journal = JobJournal<MemorySink>;

    ghost desk = { λ d. record {
      text = λ name. text_in d.texts name;
      faults = d.faults;
      given = option_map given_view d.given;
      handed = d.handed;
      journaled = d.journaled;
    } };

    #[tactic(auto, using(crate::proofs::DrawerLemmas::kits_seen))]
    fn jobs(
        &mut self,
        _alloc: Global,
        config: &Config,
        accepts: u32,
    ) -> Result<MemoryJobs, JobsFault> {
        match take_kits(
            &mut self.laid,
            accepts,
            config.workers as usize,
            config.fronts.len(),
        ) {
            Some(jobs) => {
                self.given = Some(Snapshot::of(&jobs));
                Ok(jobs)
            }
            None => {
                self.faults = self.faults.saturating_add(1);
                Err(JobsFault::Failed)
            }
        }
    }

    fn config(&mut self, name: &Text) -> Result<MemorySource, Failed> {
        if self.failing > 0 {
            self.failing -= 1;
            self.faults = self.faults.saturating_add(1);
            return Err(Failed);
        }
        match open(self.alloc, &self.drawers, name.bytes()) {
            Some(source) => Ok(source),
            None => {
                self.faults = self.faults.saturating_add(1);
                Err(Failed)
            }
        }
    }

    fn dial(&mut self, to: Address) -> Result<MemoryConn, Failed> {
        match self.wire.take() {
            Some(wire) => {
                self.lent.wire = Some(to);
                Ok(wire)
            }
            None => {
                self.faults = self.faults.saturating_add(1);
                Err(Failed)
            }
        }
    }

    fn inlet(&mut self) -> Result<MemoryInlet, Failed> {
        match self.inlet.take() {
            Some(inlet) => {
                self.lent.inlet = true;
                Ok(inlet)
            }
            None => {
                self.faults = self.faults.saturating_add(1);
                Err(Failed)
            }
        }
    }

    fn moment(&mut self) -> MemoryMoment {
        self.lent.moment = true;
        MemoryMoment::new(self.clock.take())
    }

    fn journal(&mut self, job: u64) -> Result<JobJournal<MemorySink>, Failed> {
        match self.make_journal(job) {
            Some(sink) => Ok(JobJournal::new(job, sink)),
            None => {
                self.faults = self.faults.saturating_add(1);
                Err(Failed)
            }
        }
    }
}
