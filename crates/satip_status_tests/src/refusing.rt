//! A desk that may be out of memory for kits.

ghost use Rattle.std.specs.Prelude.{◌≡◌};

use satip_base::{Address, Failed, Text};
use satip_config::Config;
use satip_desk::{Desk, Devices, Jobs, JobsFault};
use std::alloc::Global;

/// A desk that is out of memory for kits, if it refuses.
#[derive(Drop)]
pub(crate) struct RefusingDesk<K> {
    desk: K,
    refuses: bool,
}

impl<K: Desk> RefusingDesk<K> {
    pub(crate) fn new(desk: K, refuses: bool) -> RefusingDesk<K>
        ensures desk { result.desk ≡ desk }
    {
        RefusingDesk { desk, refuses }
    }
}

impl<K: Desk> Devices for RefusingDesk<K> {
    type Doors = K::Doors;

    type Outlet = K::Outlet;

    type Pacer = K::Pacer;

    type Store = K::Store;

    type Clock = K::Clock;
}

impl<K: Desk> Desk for RefusingDesk<K> {
    type Config = K::Config;

    type Wire = K::Wire;

    type Inlet = K::Inlet;

    type Moment = K::Moment;

    type Journal = K::Journal;

    ghost desk = { λ d. K.desk d.desk };

    fn jobs(&mut self, alloc: Global, config: &Config, accepts: u32) -> Result<Jobs<K>, JobsFault> {
        if self.refuses {
            return Err(JobsFault::Want);
        }
        self.desk.jobs(alloc, config, accepts)
    }

    fn config(&mut self, name: &Text) -> Result<K::Config, Failed> {
        self.desk.config(name)
    }

    fn dial(&mut self, to: Address) -> Result<K::Wire, Failed> {
        self.desk.dial(to)
    }

    fn inlet(&mut self) -> Result<K::Inlet, Failed> {
        self.desk.inlet()
    }

    fn moment(&mut self) -> K::Moment {
        self.desk.moment()
    }

    fn journal(&mut self, job: u64) -> Result<K::Journal, Failed> {
        self.desk.journal(job)
    }
}
