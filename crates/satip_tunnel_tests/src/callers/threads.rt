//! Callers of one tunnel in several threads.
ghost use Rattle.std.specs.Prelude.{◌≡◌};
ghost use Rattle.satip_interleave.specs.Histories.{TunnelLegal};
ghost use Rattle.satip_turn.specs.Shown.{IsOf, Knows};

use crate::checks::check;
use crate::setting::shared_of_two;
use satip_base::Out;
use satip_interleave::{SharedTunnel, TunnelCaller, TunnelPass};
use satip_plain::{Event, Service};
use std::sync::Wait;
use std::thread::{Threads, join};

// Ticks so often.
fn tick_often<S: Service>(service: &mut S, out: &mut Out)
    ensures { S.same service.old service.new }
{
    for now in 0..1000 {
        if service.call(&Event::Tick { now }, out).is_err() {
            break;
        }
    }
}

// Ticks as one caller, and hands the pass back.
fn tick_as_caller<R: Wait + Sync>(
    rt: &R,
    server: &SharedTunnel,
    pass: TunnelPass,
    mut out: Out,
) -> TunnelPass
    requires of { IsOf pass server.now }
    requires knows { Knows (TunnelLegal server.now.setting) pass }
    ensures of { IsOf result server.now }
{
    let mut caller = TunnelCaller { rt, server, pass };
    tick_often(&mut caller, &mut out);
    caller.pass
}

// Two threads tick, each as a caller of its own.
fn tick_by_two<R: Threads + Wait + Sync>(
    rt: &R,
    server: &SharedTunnel,
    first: &mut TunnelPass,
    outs: (Out, Out),
)
    requires { IsOf first.old server.now }
    ensures { IsOf first.new server.now }
{
    let one = server.split(first);
    let two = server.split(first);
    let (left, right) = outs;
    let (one, two) = join(
        rt,
        move || -> TunnelPass
            requires of { IsOf one server.now }
            requires knows { Knows (TunnelLegal server.now.setting) one }
            ensures { IsOf result server.entry.now }
        { tick_as_caller(rt, server, one, left) },
        move || -> TunnelPass
            requires of { IsOf two server.now }
            requires knows { Knows (TunnelLegal server.now.setting) two }
            ensures { IsOf result server.entry.now }
        { tick_as_caller(rt, server, two, right) },
    );
    server.join(first, one);
    server.join(first, two);
}

#[test]
fn two_threads_share_one_history(rt: HostRuntime) {
    let left = Out::make(rt.alloc()).expect(&rt, "out of memory");
    let right = Out::make(rt.alloc()).expect(&rt, "out of memory");
    let (server, mut first) = shared_of_two(&rt, rt.alloc());
    tick_by_two(&rt, &server, &mut first, (left, right));
    server.refresh(&rt, &mut first);
    check(&rt, "entries", first.place(), 2000);
}
