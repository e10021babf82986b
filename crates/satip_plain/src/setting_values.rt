//! Facts about each setting: its values are within their types.
ghost use Rattle.satip_base.specs.Lists.{Each};
ghost use Rattle.satip_plain.specs.Values.{AreBytes, IsFrontEnd, IsMultiplex, IsSetting};

use crate::setting::Setting;
use crate::values::known_bytes;
use satip_base::Text;
use satip_tune::{Front, Mux};

/// Gives a caller's proof the facts of each setting: its numbers and bytes are within their types,
/// and each front end has 256 positions and two systems.
pub fn known_setting(setting: &Setting)
    ensures value { IsSetting setting.now }
{
    let _start = setting.start;
    let _address = setting.config.address;
    let _rtsp_port = setting.config.rtsp_port;
    let _http_port = setting.config.http_port;
    let _timeout = setting.config.timeout;
    let _workers = setting.config.workers;
    known_fronts(setting.config.fronts.as_slice());
    known_muxes(setting.config.muxes.as_slice());
    known_files(setting.config.files.as_slice());
}

fn known_front(front: &Front)
    ensures value { IsFrontEnd front.now }
{
    let _number = front.number;
    let _sources = front.sources;
    let _systems = front.systems;
}

fn known_fronts(fronts: &[Front])
    ensures value { Each IsFrontEnd fronts.now }
{
    for front in fronts {
        known_front(front);
    }
}

fn known_mux(mux: &Mux)
    ensures value { IsMultiplex mux.now }
{
    let _src = mux.src;
    let _freq = mux.freq;
    let _sr = mux.sr;
}

fn known_muxes(muxes: &[Mux])
    ensures value { Each IsMultiplex muxes.now }
{
    for mux in muxes {
        known_mux(mux);
    }
}

fn known_files(files: &[Text])
    ensures value { Each AreBytes files.now }
{
    for file in files {
        known_bytes(file.bytes());
    }
}
