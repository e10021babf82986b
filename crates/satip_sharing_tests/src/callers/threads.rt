//! Callers of one server in several threads.
ghost use Rattle.std.specs.Prelude.{◌≡◌};
ghost use Rattle.satip_plain.specs.Histories.{Legal};
ghost use Rattle.satip_turn.specs.Shown.{IsOf, Knows};

use super::{output, shared};
use crate::checks::check;
use satip_base::Out;
use satip_plain::{Event, Service};
use satip_shared::{Caller, SharedPass, SharedServer};
use std::sync::Wait;
use std::thread::{Threads, join};

const COUNT: u64 = 1000;

// Ticks so often.
fn tick_often<S: Service>(service: &mut S, out: &mut Out)
    ensures { S.same service.old service.new }
{
    for now in 0..COUNT {
        if service.call(&Event::Tick { now }, out).is_err() {
            break;
        }
    }
}

// Ticks as one caller, and hands the pass back.
fn tick_as_caller<R: Wait + Sync>(
    rt: &R,
    server: &SharedServer,
    pass: SharedPass,
    mut out: Out,
) -> SharedPass
    requires of { IsOf pass server.now }
    requires knows { Knows (Legal server.now.setting) pass }
    ensures of { IsOf result server.now }
{
    let mut caller = Caller { rt, server, pass };
    tick_often(&mut caller, &mut out);
    caller.pass
}

// Two threads tick, each as a caller of its own.
fn tick_by_two<R: Threads + Wait + Sync>(
    rt: &R,
    server: &SharedServer,
    first: &mut SharedPass,
    left: Out,
    right: Out,
)
    requires { IsOf first.old server.now }
    ensures { IsOf first.new server.now }
{
    let one = server.split(first);
    let two = server.split(first);
    let (one, two) = join(
        rt,
        move || -> SharedPass
            requires of { IsOf one server.now }
            requires knows { Knows (Legal server.now.setting) one }
            ensures { IsOf result server.entry.now }
        { tick_as_caller(rt, server, one, left) },
        move || -> SharedPass
            requires of { IsOf two server.now }
            requires knows { Knows (Legal server.now.setting) two }
            ensures { IsOf result server.entry.now }
        { tick_as_caller(rt, server, two, right) },
    );
    server.join(first, one);
    server.join(first, two);
}

#[test]
fn two_threads_share_one_history(rt: HostRuntime) {
    let left = output(&rt, rt.alloc());
    let right = output(&rt, rt.alloc());
    let (server, mut first) = shared(&rt, rt.alloc());
    tick_by_two(&rt, &server, &mut first, left, right);
    server.refresh(&rt, &mut first);
    check(&rt, "entries", first.place(), 2000);
}
