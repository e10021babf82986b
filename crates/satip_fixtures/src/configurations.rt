//! Configurations with a few front ends and multiplexes.

ghost use Rattle.std.specs.Prelude.{◌≡◌, length, IfOk};
ghost use Rattle.satip_fronts.specs.FrontEnds.{IsNumbered};

use satip_tune::{Config, Fec, Front, Modulation, Mux, Pol, RollOff, System, Tuning};
use std::alloc::{AllocError, Global};

/// The multiplex 11361.75 MHz, horizontal, DVB-S2.
pub const FIRST_MUX: Mux = Mux {
    src: 1,
    freq: 11361750,
    pol: Pol::H,
    msys: System::Dvbs2,
    sr: 22000,
};

/// The tuning of the first multiplex as a client gives it, with every key but `fe`.
pub const FIRST_TUNING: Tuning = Tuning {
    fe: None,
    src: 1,
    freq: 11361750,
    pol: Pol::H,
    ro: Some(RollOff::R35),
    msys: System::Dvbs2,
    mtype: Some(Modulation::Psk8),
    plts: Some(true),
    sr: 22000,
    fec: Some(Fec::F23),
};

/// The multiplex 12402 MHz, vertical, DVB-S.
pub const SECOND_MUX: Mux = Mux {
    src: 1,
    freq: 12402000,
    pol: Pol::V,
    msys: System::Dvbs,
    sr: 27500,
};

/// Returns a front end that reaches position 1 and receives both systems.
pub fn front_end(number: u16) -> Front
    ensures number { result.number ≡ number }
{
    let mut sources = [false; 256];
    sources[1] = true;
    Front {
        number,
        sources,
        systems: [true, true],
    }
}

// Returns front ends with the numbers from 1 to `last`.
#[tactic(auto, using(crate::proofs::Numbered::numbered_more))]
fn front_ends(alloc: Global, last: u16) -> Result<Vec<Front>, AllocError>
    ensures count { IfOk result (λ fronts. length fronts.items ≡ last) }
    ensures numbered { IfOk result (λ fronts. IsNumbered 1 fronts.items) }
{
    let mut fronts = Vec::new(alloc);
    for below in 0..last {
        fronts.push(front_end(below + 1))?;
    }
    Ok(fronts)
}

/// Returns the configuration of a server at 192.168.1.10 with this many front ends, each of which
/// receives all of these multiplexes. It names no recordings. All other values are the defaults of
/// a file.
pub fn config_with(alloc: Global, fronts: u16, muxes: &[Mux]) -> Result<Config, AllocError>
    ensures fronts { IfOk result (λ config. length config.fronts ≡ fronts) }
    ensures numbered { IfOk result (λ config. IsNumbered 1 config.fronts) }
    ensures muxes { IfOk result (λ config. config.muxes ≡ muxes.now) }
{
    Ok(Config {
        address: 0xc0a8_010a,
        rtsp_port: 554,
        http_port: 8875,
        timeout: 60,
        workers: 8,
        fronts: front_ends(alloc, fronts)?,
        muxes: Vec::from_slice(alloc, muxes)?,
        files: Vec::new(alloc),
    })
}
