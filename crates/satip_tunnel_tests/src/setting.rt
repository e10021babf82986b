//! Small shared tunnels.
ghost use Rattle.satip_interleave.specs.Histories.{TunnelLegal};
ghost use Rattle.satip_turn.specs.Shown.{IsOf, Knows};

use satip_fixtures::{FIRST_MUX, SECOND_MUX, config_with};
use satip_interleave::{SharedTunnel, TunnelPass, make};
use std::alloc::Global;
use std::process::Abort;

/// Returns a shared tunnel over a server with one front end and one multiplex, at 0 milliseconds.
pub fn shared(rt: &impl Abort, alloc: Global) -> (SharedTunnel, TunnelPass)
    ensures of { IsOf result.1 result.0 }
    ensures knows { Knows (TunnelLegal result.0.setting) result.1 }
{
    let Ok(config) = config_with(alloc, 1, &[FIRST_MUX]) else {
        rt.panic("out of memory");
    };
    let Ok(made) = make(alloc, config, 0) else {
        rt.panic("out of memory");
    };
    made
}

/// Returns a shared tunnel over a server with two front ends and two multiplexes, at 0
/// milliseconds.
pub fn shared_of_two(rt: &impl Abort, alloc: Global) -> (SharedTunnel, TunnelPass)
    ensures of { IsOf result.1 result.0 }
    ensures knows { Knows (TunnelLegal result.0.setting) result.1 }
{
    let Ok(config) = config_with(alloc, 2, &[FIRST_MUX, SECOND_MUX]) else {
        rt.panic("out of memory");
    };
    let Ok(made) = make(alloc, config, 0) else {
        rt.panic("out of memory");
    };
    made
}
