//! The shared tunnel.
ghost use Rattle.std.specs.Prelude.{◌≡◌, ◌≤◌, length, IfOk};
ghost use Rattle.satip_fronts.specs.FrontEnds.{IsNumbered};
ghost use Rattle.satip_interleave.specs.Histories.{TunnelLegal};
ghost use Rattle.satip_turn.specs.Shown.{IsOf, Knows, first_pass};

use crate::one_tunnel::Tunnel;
use satip_base::Want;
use satip_tune::Config;
use satip_turn::{Pass, TurnCell};
use std::alloc::Global;

/// The tunnel in a turn cell. Many threads call it through a `&`, one at a time. All their calls
/// are in one history, which is legal in the setting of the tunnel's server.
pub type SharedTunnel = TurnCell<Tunnel>;

/// The right to call the shared tunnel as one caller, and that caller's knowledge of the history.
pub type TunnelPass = Pass<Tunnel>;

/// Creates the shared tunnel before its first event, and the pass of caller 0. The clock is at
/// `start`, in milliseconds of Unix time. Returns `Want` if memory was refused.
pub fn make(alloc: Global, config: Config, start: u64) -> Result<(SharedTunnel, TunnelPass), Want>
    requires few { length config.fronts ≤ 16 }
    requires numbered { IsNumbered 1 config.fronts }
    requires received { length config.muxes ≤ 256 }
    ensures setting { IfOk result (λ made. made.0.setting
        ≡ record { config = config; start = start }) }
    ensures pass { IfOk result (λ made. made.1 ≡ first_pass made.0) }
    ensures of { IfOk result (λ made. IsOf made.1 made.0) }
    ensures knows { IfOk result (λ made. Knows (TunnelLegal made.0.setting) made.1) }
{
    let tunnel = Tunnel::make(alloc, config, start)?;
    let (cell, pass) = TurnCell::make(alloc, tunnel)?;
    Ok((cell, pass))
}
