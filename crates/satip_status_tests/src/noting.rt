//! A desk that notes in which order a client takes its devices.

ghost use Rattle.std.specs.Prelude.{◌≡◌, None, IfSome};
ghost use Rattle.satip_desk.specs.Handed.{nothing_handed};
ghost use Rattle.satip_world.specs.Lines.{fresh_line};

use crate::runs::{check, make_streams, run_over};
use satip_base::{Address, Failed, Text};
use satip_config::Config;
use satip_desk::{Desk, Devices, Jobs, JobsFault};
use satip_memory::MemoryConn;
use satip_memory_desk::MemoryDesk;
use std::alloc::Global;
use std::process::Abort;
use std::sync::Wait;
use std::thread::Threads;

// A desk, and the devices that it was asked for, a digit each: 1 is the clock, 2 the connection, 3
// the inlet.
#[derive(Drop)]
struct NotingDesk<K> {
    desk: K,
    asked: u32,
}

impl<K> NotingDesk<K> {
    fn note(&mut self, digit: u32)
        ensures desk { self.new.desk ≡ self.old.desk }
    {
        self.asked = self.asked.saturating_mul(10).saturating_add(digit);
    }
}

impl<K: Desk> Devices for NotingDesk<K> {
    type Doors = K::Doors;

    type Outlet = K::Outlet;

    type Pacer = K::Pacer;

    type Store = K::Store;

    type Clock = K::Clock;
}

impl<K: Desk> Desk for NotingDesk<K> {
    type Config = K::Config;

    type Wire = K::Wire;

    type Inlet = K::Inlet;

    type Moment = K::Moment;

    type Journal = K::Journal;

    ghost desk = { λ d. K.desk d.desk };

    fn jobs(&mut self, alloc: Global, config: &Config, accepts: u32) -> Result<Jobs<K>, JobsFault> {
        self.desk.jobs(alloc, config, accepts)
    }

    fn config(&mut self, name: &Text) -> Result<K::Config, Failed> {
        self.desk.config(name)
    }

    fn dial(&mut self, to: Address) -> Result<K::Wire, Failed> {
        self.note(2);
        self.desk.dial(to)
    }

    fn inlet(&mut self) -> Result<K::Inlet, Failed> {
        self.note(3);
        self.desk.inlet()
    }

    fn moment(&mut self) -> K::Moment {
        self.note(1);
        self.desk.moment()
    }

    fn journal(&mut self, job: u64) -> Result<K::Journal, Failed> {
        self.desk.journal(job)
    }
}

// Creates a desk with this connection for a client, and without an inlet.
fn make_noting(alloc: Global, wire: Option<MemoryConn>) -> NotingDesk<MemoryDesk>
    requires wire { IfSome wire (λ line. line ≡ fresh_line) }
    ensures new { result.desk.given ≡ None }
    ensures client { result.desk.handed ≡ nothing_handed }
{
    let mut desk = MemoryDesk::make(alloc, 0);
    desk.lend(wire, None, None);
    NotingDesk { desk, asked: 0 }
}

// Records over such a desk. Returns the status, and the devices that the desk was asked for.
fn record_noting<R: Threads + Wait + Sync + Abort>(
    rt: &R,
    alloc: Global,
    wire: Option<MemoryConn>,
) -> (u8, u32)
    requires wire { IfSome wire (λ line. line ≡ fresh_line) }
{
    let words = ["record", "127.0.0.1:18554", "freq=12402", "1"];
    let mut streams = make_streams(rt, alloc, &words);
    let mut desk = make_noting(alloc, wire);
    let ended = run_over(rt, alloc, &mut streams, &mut desk);
    (ended.status, desk.asked)
}

// The clock comes before the connection, and the connection before the inlet.
#[test]
fn a_client_takes_its_devices_in_order(rt: HostRuntime) {
    let alloc = rt.alloc();
    let got = record_noting(&rt, alloc, None);
    check(&rt, "without a connection", got, (13, 12));
    let Ok(wire) = MemoryConn::make(alloc, &[], &[], &[], 0) else {
        panic!(rt; "out of memory");
    };
    let got = record_noting(&rt, alloc, Some(wire));
    check(&rt, "without an inlet", got, (13, 123));
}
