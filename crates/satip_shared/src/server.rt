//! The shared server.
ghost use Rattle.std.specs.Prelude.{◌≡◌, ◌≤◌, length, IfOk};
ghost use Rattle.satip_fronts.specs.FrontEnds.{IsNumbered};
ghost use Rattle.satip_plain.specs.Histories.{Legal};
ghost use Rattle.satip_turn.specs.Shown.{IsOf, Knows, first_pass};

use satip_base::Want;
use satip_core::Server;
use satip_tune::Config;
use satip_turn::{Pass, TurnCell};
use std::alloc::Global;

/// The server in a turn cell. Many threads call it through a `&`, one at a time. All their calls
/// are in one history, which is legal in the server's setting.
pub type SharedServer = TurnCell<Server>;

/// The right to call the shared server as one caller, and what that caller knows of the history.
pub type SharedPass = Pass<Server>;

/// Creates the shared server before its first event, and the pass of caller 0. `start` is the
/// clock's time, in milliseconds of Unix time. Returns `Want` if out of memory.
pub fn make(alloc: Global, config: Config, start: u64) -> Result<(SharedServer, SharedPass), Want>
    requires few { length config.fronts ≤ 16 }
    requires numbered { IsNumbered 1 config.fronts }
    requires received { length config.muxes ≤ 256 }
    ensures setting { IfOk result (λ made. made.0.setting
        ≡ record { config = config; start = start }) }
    ensures pass { IfOk result (λ made. made.1 ≡ first_pass made.0) }
    ensures of { IfOk result (λ made. IsOf made.1 made.0) }
    ensures knows { IfOk result (λ made. Knows (Legal made.0.setting) made.1) }
{
    let server = Server::make(alloc, config, start)?;
    let (cell, pass) = TurnCell::make(alloc, server)?;
    Ok((cell, pass))
}
