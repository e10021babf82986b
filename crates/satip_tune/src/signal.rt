//! The parameters of a satellite signal (SAT>IP 1.2.2, 3.5.10).

ghost use Rattle.std.specs.Prelude.{◌≡◌};
ghost use Rattle.satip_tune.specs.Words.{pol_text, pol_named, system_text, system_named, modulation_text, modulation_named, roll_off_text, roll_off_named, fec_text, fec_named, pilots_text_of, pilots_named_of};

use crate::pieces::same_bytes;

/// Polarisation: horizontal, vertical, circular left, circular right.
#[derive(Clone, Copy, Debug, PartialEq, Eq)]
pub enum Pol {
    H,
    V,
    L,
    R,
}

impl Pol {
    /// Returns the value of `pol` in a query.
    #[tactic(auto, unfolding(crate::specs::Words::pol_named, crate::specs::Words::pol_text))]
    pub fn text(&self) -> &'static [u8]
        ensures text { result.now ≡ pol_text self.now }
        ensures read_again { pol_named result.now ≡ Some self.now }
    {
        match *self {
            Pol::H => b"h",
            Pol::V => b"v",
            Pol::L => b"l",
            Pol::R => b"r",
        }
    }

    /// Returns the polarisation with this text, byte for byte.
    #[tactic(auto, unfolding(crate::specs::Words::pol_named))]
    pub fn named(text: &[u8]) -> Option<Pol>
        ensures named { result ≡ pol_named text.now }
    {
        if same_bytes(Pol::H.text(), text) {
            Some(Pol::H)
        } else if same_bytes(Pol::V.text(), text) {
            Some(Pol::V)
        } else if same_bytes(Pol::L.text(), text) {
            Some(Pol::L)
        } else if same_bytes(Pol::R.text(), text) {
            Some(Pol::R)
        } else {
            None
        }
    }
}

/// The delivery system: DVB-S or DVB-S2.
#[derive(Clone, Copy, Debug, PartialEq, Eq)]
pub enum System {
    Dvbs,
    Dvbs2,
}

impl System {
    /// Returns the value of `msys` in a query.
    #[tactic(auto, unfolding(crate::specs::Words::system_named, crate::specs::Words::system_text))]
    pub fn text(&self) -> &'static [u8]
        ensures text { result.now ≡ system_text self.now }
        ensures read_again { system_named result.now ≡ Some self.now }
    {
        match *self {
            System::Dvbs => b"dvbs",
            System::Dvbs2 => b"dvbs2",
        }
    }

    /// Returns the delivery system with this text, byte for byte.
    #[tactic(auto, unfolding(crate::specs::Words::system_named))]
    pub fn named(text: &[u8]) -> Option<System>
        ensures named { result ≡ system_named text.now }
    {
        if same_bytes(System::Dvbs.text(), text) {
            Some(System::Dvbs)
        } else if same_bytes(System::Dvbs2.text(), text) {
            Some(System::Dvbs2)
        } else {
            None
        }
    }
}

/// The modulation: QPSK or 8PSK.
#[derive(Clone, Copy, Debug, PartialEq, Eq)]
pub enum Modulation {
    Qpsk,
    Psk8,
}

impl Modulation {
    /// Returns the value of `mtype` in a query.
    #[tactic(auto, unfolding(crate::specs::Words::modulation_named, crate::specs::Words::modulation_text))]
    pub fn text(&self) -> &'static [u8]
        ensures text { result.now ≡ modulation_text self.now }
        ensures read_again { modulation_named result.now ≡ Some self.now }
    {
        match *self {
            Modulation::Qpsk => b"qpsk",
            Modulation::Psk8 => b"8psk",
        }
    }

    /// Returns the modulation with this text, byte for byte.
    #[tactic(auto, unfolding(crate::specs::Words::modulation_named))]
    pub fn named(text: &[u8]) -> Option<Modulation>
        ensures named { result ≡ modulation_named text.now }
    {
        if same_bytes(Modulation::Qpsk.text(), text) {
            Some(Modulation::Qpsk)
        } else if same_bytes(Modulation::Psk8.text(), text) {
            Some(Modulation::Psk8)
        } else {
            None
        }
    }
}

/// The roll-off factor: 0.35, 0.25 or 0.20.
#[derive(Clone, Copy, Debug, PartialEq, Eq)]
pub enum RollOff {
    R35,
    R25,
    R20,
}

impl RollOff {
    /// Returns the value of `ro` in a query.
    #[tactic(auto, unfolding(crate::specs::Words::roll_off_named, crate::specs::Words::roll_off_text))]
    pub fn text(&self) -> &'static [u8]
        ensures text { result.now ≡ roll_off_text self.now }
        ensures read_again { roll_off_named result.now ≡ Some self.now }
    {
        match *self {
            RollOff::R35 => b"0.35",
            RollOff::R25 => b"0.25",
            RollOff::R20 => b"0.20",
        }
    }

    /// Returns the roll-off with this text, byte for byte.
    #[tactic(auto, unfolding(crate::specs::Words::roll_off_named))]
    pub fn named(text: &[u8]) -> Option<RollOff>
        ensures named { result ≡ roll_off_named text.now }
    {
        if same_bytes(RollOff::R35.text(), text) {
            Some(RollOff::R35)
        } else if same_bytes(RollOff::R25.text(), text) {
            Some(RollOff::R25)
        } else if same_bytes(RollOff::R20.text(), text) {
            Some(RollOff::R20)
        } else {
            None
        }
    }
}

/// The inner code rate: `F12` is 1/2, `F910` is 9/10.
#[derive(Clone, Copy, Debug, PartialEq, Eq)]
pub enum Fec {
    F12,
    F23,
    F34,
    F56,
    F78,
    F89,
    F35,
    F45,
    F910,
}

impl Fec {
    /// Returns the value of `fec` in a query.
    #[tactic(auto, unfolding(crate::specs::Words::fec_named, crate::specs::Words::fec_text))]
    pub fn text(&self) -> &'static [u8]
        ensures text { result.now ≡ fec_text self.now }
        ensures read_again { fec_named result.now ≡ Some self.now }
    {
        match *self {
            Fec::F12 => b"12",
            Fec::F23 => b"23",
            Fec::F34 => b"34",
            Fec::F56 => b"56",
            Fec::F78 => b"78",
            Fec::F89 => b"89",
            Fec::F35 => b"35",
            Fec::F45 => b"45",
            Fec::F910 => b"910",
        }
    }

    /// Returns the code rate with this text, byte for byte.
    #[tactic(auto, unfolding(crate::specs::Words::fec_named))]
    pub fn named(text: &[u8]) -> Option<Fec>
        ensures named { result ≡ fec_named text.now }
    {
        if same_bytes(Fec::F12.text(), text) {
            Some(Fec::F12)
        } else if same_bytes(Fec::F23.text(), text) {
            Some(Fec::F23)
        } else if same_bytes(Fec::F34.text(), text) {
            Some(Fec::F34)
        } else if same_bytes(Fec::F56.text(), text) {
            Some(Fec::F56)
        } else if same_bytes(Fec::F78.text(), text) {
            Some(Fec::F78)
        } else if same_bytes(Fec::F89.text(), text) {
            Some(Fec::F89)
        } else if same_bytes(Fec::F35.text(), text) {
            Some(Fec::F35)
        } else if same_bytes(Fec::F45.text(), text) {
            Some(Fec::F45)
        } else if same_bytes(Fec::F910.text(), text) {
            Some(Fec::F910)
        } else {
            None
        }
    }
}

/// Returns the value of `plts` in a query.
#[tactic(auto, unfolding(crate::specs::Words::pilots_named_of, crate::specs::Words::pilots_text_of))]
pub fn pilots_text(on: bool) -> &'static [u8]
    ensures text { result.now ≡ pilots_text_of on }
    ensures read_again { pilots_named_of result.now ≡ Some on }
{
    if on { b"on" } else { b"off" }
}

/// Returns whether this text, byte for byte, is `on`; None if it is neither `on` nor `off`.
#[tactic(auto, unfolding(crate::specs::Words::pilots_named_of))]
pub fn pilots_named(text: &[u8]) -> Option<bool>
    ensures named { result ≡ pilots_named_of text.now }
{
    if same_bytes(pilots_text(true), text) {
        Some(true)
    } else if same_bytes(pilots_text(false), text) {
        Some(false)
    } else {
        None
    }
}
