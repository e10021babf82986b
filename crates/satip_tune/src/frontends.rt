//! Front ends and the multiplexes that they receive.

ghost use Rattle.std.specs.Prelude.{◌≡◌, ◌≤◌, length, position, is_some};
ghost use Rattle.std.specs.List.{list_any};
ghost use Rattle.satip_tune.specs.Frontends.{fits_of, is_meant_of, mux_for};

use crate::signal::{Pol, System};
use crate::tunings::Tuning;

/// A front end: its number from 1, the satellite positions that it reaches and the systems that it
/// receives. `sources[n]` is for position `n`; `systems` has DVB-S at 0 and DVB-S2 at 1.
#[derive(Clone, Copy, Debug, PartialEq, Eq)]
pub struct Front {
    pub number: u16,
    pub sources: [bool; 256],
    pub systems: [bool; 2],
}

/// A multiplex that can be received: its satellite position, its frequency in kHz, its polarisation
/// and system, and its symbol rate in kSymb/s.
#[derive(Clone, Copy, Debug, PartialEq, Eq)]
pub struct Mux {
    pub src: u8,
    pub freq: u32,
    pub pol: Pol,
    pub msys: System,
    pub sr: u32,
}

/// Returns whether the front end can be tuned to this. It has to reach the position, receive the
/// system, and have the wanted number if one is wanted.
pub fn fits(front: &Front, tuning: &Tuning) -> bool
    ensures fitting { result ≡ fits_of front.now tuning.now }
{
    let received = match tuning.msys {
        System::Dvbs => front.systems[0],
        System::Dvbs2 => front.systems[1],
    };
    let wanted = match tuning.fe {
        None => true,
        Some(number) => number == front.number,
    };
    front.sources[tuning.src as usize] && received && wanted
}

fn is_meant(tuning: &Tuning, mux: &Mux) -> bool
    ensures meant { result ≡ is_meant_of tuning.now mux.now }
{
    mux.src == tuning.src
        && mux.pol == tuning.pol
        && mux.msys == tuning.msys
        && mux.sr == tuning.sr
        && mux.freq.abs_diff(tuning.freq) <= 2000
}

fn place_of(muxes: &[Mux], tuning: &Tuning) -> Option<usize>
    ensures found { result ≡ position (is_meant_of tuning.now) muxes.now }
{
    muxes.iter().position(|mux| is_meant(tuning, mux))
}

/// Returns the number, from 1, of the first multiplex that the tuning means. Position,
/// polarisation, system and symbol rate are equal, and the frequencies differ by at most 2000 kHz.
pub fn mux_of(muxes: &[Mux], tuning: &Tuning) -> Option<u16>
    requires { length muxes.now ≤ 256 }
    ensures found { result ≡ mux_for muxes.now tuning.now }
    ensures none { is_some result ≡ list_any (is_meant_of tuning.now) muxes.now }
{
    match place_of(muxes, tuning) {
        None => None,
        Some(place) => Some(place as u16 + 1),
    }
}
