//! Connections that enter and leave a tunnel.

use crate::steps::{Call, Step, take, take_each, tunnel};
use satip_base::Out;
use satip_interleave::{Tunnel, TunnelAnswer};
use std::alloc::Global;
use std::process::Abort;

// A further connection doesn't enter. One leaves, once, and a further one enters in its place.
const FULL: &[Step] = &[
    Step::Make(Call::Enter, TunnelAnswer::Full),
    Step::Make(Call::Leave(7), TunnelAnswer::Left),
    Step::Make(Call::Leave(7), TunnelAnswer::Gone),
    Step::Make(Call::Drain(7), TunnelAnswer::Gone),
    Step::Make(Call::Enter, TunnelAnswer::Lane(65)),
    Step::Make(Call::Enter, TunnelAnswer::Full),
];

// Sixty-four connections enter.
fn fill(rt: &impl Abort, alloc: Global, tunnel: &mut Tunnel, out: &mut Out) {
    for number in 1..65 {
        let step = Step::Make(Call::Enter, TunnelAnswer::Lane(number));
        take(rt, alloc, tunnel, out, "one of 64 connections", step);
    }
}

#[test]
fn sixty_four_connections_enter(rt: HostRuntime) {
    let mut out = Out::make(rt.alloc()).expect(&rt, "out of memory");
    let mut tunnel = tunnel(&rt, rt.alloc());
    fill(&rt, rt.alloc(), &mut tunnel, &mut out);
    take_each(
        &rt,
        rt.alloc(),
        &mut tunnel,
        &mut out,
        "a full tunnel",
        FULL,
    );
}
