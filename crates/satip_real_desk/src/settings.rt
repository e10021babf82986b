//! Settings from the environment.

ghost use Rattle.std.specs.Prelude.{◌≡◌, ◌≢◌, [], true, false, Some, None};

use crate::fault::KitsFault;
use satip_base::Text;
use satip_real::Carried;
use std::alloc::Global;
use std::env::{Env, FillError};

const PACE: &str = "SATIP_PACE";

const REPEAT: &str = "SATIP_REPEAT";

// The variables that name the file that asks the server to end, and the one that it writes.
const STOP: &str = "SATIP_STOP";

const STATUS: &str = "SATIP_STATUS";

// The room for the name of a file (PATH_MAX of limits.h).
const PATH: usize = 4096;

// The room for a setting's value. Each value that a setting has is shorter.
const ROOM: usize = 16;

/// The settings of playing recordings.
#[derive(Clone, Copy, PartialEq, Eq)]
pub struct Settings {
    /// Recordings play at their own rate: `SATIP_PACE=recording`.
    pub paces: bool,
    /// Recordings play again at their end: `SATIP_REPEAT=1`.
    pub repeats: bool,
}

impl Settings {
    /// Reads both variables. An empty one counts as not set.
    pub fn read(env: &impl Env) -> Result<Settings, KitsFault> {
        let Some(paces) = read_switch(env, PACE, "recording") else {
            return Err(KitsFault::Pace);
        };
        let Some(repeats) = read_switch(env, REPEAT, "1") else {
            return Err(KitsFault::Repeat);
        };
        Ok(Settings { paces, repeats })
    }
}

/// What a server is told beside its configuration.
#[derive(Drop)]
pub struct Told {
    /// What its RTSP connections carry.
    pub carried: Carried,
    /// The line that tells the program's name and version.
    pub version: &'static [u8],
    /// How it plays recordings.
    pub settings: Settings,
    /// The name of the file that asks it to end, if there may be one.
    pub stop: Option<Text>,
    /// The name of its status file, if it writes one.
    pub status: Option<Text>,
}

impl Told {
    /// Reads the variables of the environment.
    pub fn read(
        env: &impl Env,
        alloc: Global,
        carried: Carried,
        version: &'static [u8],
    ) -> Result<Told, KitsFault> {
        Ok(Told {
            carried,
            version,
            settings: Settings::read(env)?,
            stop: read_file(env, alloc, STOP)?,
            status: read_file(env, alloc, STATUS)?,
        })
    }
}

// Returns the name of the file that a variable names; `None` if it is empty or not set.
fn read_file(env: &impl Env, alloc: Global, name: &'static str) -> Result<Option<Text>, KitsFault> {
    let mut buf = [0; PATH];
    match env.var(name, &mut buf) {
        Ok(0) | Err(FillError::NotPresent) => Ok(None),
        Ok(count) => match str::from_utf8(&buf[..count]) {
            Ok(path) => Ok(Some(Text::of(alloc, path)?)),
            Err(_) => Err(KitsFault::Name(name)),
        },
        Err(FillError::TooLong) => Err(KitsFault::Name(name)),
    }
}

// Tells whether a variable has its one value. Returns None if it has another.
fn read_switch(env: &impl Env, name: &str, value: &str) -> Option<bool> {
    let mut buf = [0; ROOM];
    match env.var(name, &mut buf) {
        Ok(count) => switch_of(&buf[..count], value),
        Err(FillError::NotPresent) => Some(false),
        Err(FillError::TooLong) => None,
    }
}

// Tells whether a text is the one value of a switch, or empty. Returns None if it is another.
fn switch_of(text: &[u8], value: &str) -> Option<bool>
    ensures off { text.now ≡ [] → result ≡ Some false }
    ensures on { text.now ≡ value.now → text.now ≢ [] → result ≡ Some true }
    ensures other { text.now ≢ value.now → text.now ≢ [] → result ≡ None }
{
    if text.is_empty() {
        return Some(false);
    }
    if text == value.as_bytes() {
        return Some(true);
    }
    None
}
