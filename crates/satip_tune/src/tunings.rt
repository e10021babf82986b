//! Tunings, and changes of them.

ghost use Rattle.std.specs.Prelude.{◌≡◌, ◌↔◌, IsTrue, IsNone, MatchResult, None, Some};
ghost use Rattle.satip_tune.specs.Tunings.{merge_of, first_of, change_gives, gives_any, missing};

use crate::keys::Key;
use crate::signal::{Fec, Modulation, Pol, RollOff, System};

/// The parameters that a front end is tuned to. `fe` is the number of the wanted front end, `src`
/// the satellite position from 1, `freq` the transponder's frequency in kHz. `plts` is whether
/// pilot tones are on, and `sr` the symbol rate in kSymb/s.
#[derive(Clone, Copy, Debug, PartialEq, Eq)]
pub struct Tuning {
    pub fe: Option<u16>,
    pub src: u8,
    pub freq: u32,
    pub pol: Pol,
    pub ro: Option<RollOff>,
    pub msys: System,
    pub mtype: Option<Modulation>,
    pub plts: Option<bool>,
    pub sr: u32,
    pub fec: Option<Fec>,
}

/// The fields of a tuning that a query gives, in the units of `Tuning`.
#[derive(Clone, Copy, Debug, PartialEq, Eq)]
pub struct Change {
    pub fe: Option<u16>,
    pub src: Option<u8>,
    pub freq: Option<u32>,
    pub pol: Option<Pol>,
    pub ro: Option<RollOff>,
    pub msys: Option<System>,
    pub mtype: Option<Modulation>,
    pub plts: Option<bool>,
    pub sr: Option<u32>,
    pub fec: Option<Fec>,
}

impl Change {
    /// Returns whether the field of a key is given; for the keys of PIDs `false`.
    pub fn gives(&self, key: Key) -> bool
        ensures given { result ≡ change_gives self.now key }
    {
        match key {
            Key::Fe => self.fe.is_some(),
            Key::Src => self.src.is_some(),
            Key::Freq => self.freq.is_some(),
            Key::Pol => self.pol.is_some(),
            Key::Ro => self.ro.is_some(),
            Key::Msys => self.msys.is_some(),
            Key::Mtype => self.mtype.is_some(),
            Key::Plts => self.plts.is_some(),
            Key::Sr => self.sr.is_some(),
            Key::Fec => self.fec.is_some(),
            Key::Pids => false,
            Key::Addpids => false,
            Key::Delpids => false,
        }
    }

    /// Returns whether at least one field is given.
    pub fn any(&self) -> bool
        ensures given { result ≡ gives_any self.now }
    {
        self.fe.is_some()
            || self.src.is_some()
            || self.freq.is_some()
            || self.pol.is_some()
            || self.ro.is_some()
            || self.msys.is_some()
            || self.mtype.is_some()
            || self.plts.is_some()
            || self.sr.is_some()
            || self.fec.is_some()
    }
}

/// Returns the old tuning with each given field replaced by that of the change.
pub fn merge(old: &Tuning, change: &Change) -> Tuning
    ensures merged { result ≡ merge_of old.now change.now }
{
    Tuning {
        fe: change.fe.or(old.fe),
        src: change.src.unwrap_or(old.src),
        freq: change.freq.unwrap_or(old.freq),
        pol: change.pol.unwrap_or(old.pol),
        ro: change.ro.or(old.ro),
        msys: change.msys.unwrap_or(old.msys),
        mtype: change.mtype.or(old.mtype),
        plts: change.plts.or(old.plts),
        sr: change.sr.unwrap_or(old.sr),
        fec: change.fec.or(old.fec),
    }
}

/// Returns the first tuning of a stream: the given fields, with position 1 if none is given. The
/// error is the first of `freq`, `pol`, `msys` and `sr` that isn't given.
pub fn first(change: &Change) -> Result<Tuning, Key>
    ensures made { result ≡ first_of change.now }
    ensures absent { MatchResult result (λ _. missing change.now ≡ None)
        (λ key. missing change.now ≡ Some key) }
{
    let freq = change.freq.ok_or(Key::Freq)?;
    let pol = change.pol.ok_or(Key::Pol)?;
    let msys = change.msys.ok_or(Key::Msys)?;
    let sr = change.sr.ok_or(Key::Sr)?;
    Ok(Tuning {
        fe: change.fe,
        src: change.src.unwrap_or(1),
        freq,
        pol,
        ro: change.ro,
        msys,
        mtype: change.mtype,
        plts: change.plts,
        sr,
        fec: change.fec,
    })
}
