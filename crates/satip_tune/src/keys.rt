//! The keys of a query (SAT>IP 1.2.2, 3.5.9 and 3.5.10).

ghost use Rattle.std.specs.Prelude.{◌≡◌};
ghost use Rattle.satip_tune.specs.Words.{key_text, key_named};

use crate::pieces::same_bytes;

/// A known key of a query, in the order in which queries print them.
#[derive(Clone, Copy, Debug, PartialEq, Eq)]
pub enum Key {
    /// The number of the wanted front end.
    Fe,
    /// The satellite position.
    Src,
    /// The frequency, in MHz.
    Freq,
    /// The polarisation.
    Pol,
    /// The roll-off factor.
    Ro,
    /// The delivery system.
    Msys,
    /// The modulation.
    Mtype,
    /// Whether pilot tones are on.
    Plts,
    /// The symbol rate, in kSymb/s.
    Sr,
    /// The inner code rate.
    Fec,
    /// The PIDs to select in place of all others.
    Pids,
    /// The PIDs to select too.
    Addpids,
    /// The PIDs to select no longer.
    Delpids,
}

impl Key {
    /// Returns the key's text in a query.
    #[tactic(auto, unfolding(crate::specs::Words::key_named, crate::specs::Words::key_text))]
    pub fn text(&self) -> &'static [u8]
        ensures text { result.now ≡ key_text self.now }
        ensures read_again { key_named result.now ≡ Some self.now }
    {
        match *self {
            Key::Fe => b"fe",
            Key::Src => b"src",
            Key::Freq => b"freq",
            Key::Pol => b"pol",
            Key::Ro => b"ro",
            Key::Msys => b"msys",
            Key::Mtype => b"mtype",
            Key::Plts => b"plts",
            Key::Sr => b"sr",
            Key::Fec => b"fec",
            Key::Pids => b"pids",
            Key::Addpids => b"addpids",
            Key::Delpids => b"delpids",
        }
    }

    /// Returns the key with this text, byte for byte.
    #[tactic(auto, unfolding(crate::specs::Words::key_named))]
    pub fn named(text: &[u8]) -> Option<Key>
        ensures named { result ≡ key_named text.now }
    {
        if same_bytes(Key::Fe.text(), text) {
            Some(Key::Fe)
        } else if same_bytes(Key::Src.text(), text) {
            Some(Key::Src)
        } else if same_bytes(Key::Freq.text(), text) {
            Some(Key::Freq)
        } else if same_bytes(Key::Pol.text(), text) {
            Some(Key::Pol)
        } else if same_bytes(Key::Ro.text(), text) {
            Some(Key::Ro)
        } else if same_bytes(Key::Msys.text(), text) {
            Some(Key::Msys)
        } else if same_bytes(Key::Mtype.text(), text) {
            Some(Key::Mtype)
        } else if same_bytes(Key::Plts.text(), text) {
            Some(Key::Plts)
        } else if same_bytes(Key::Sr.text(), text) {
            Some(Key::Sr)
        } else if same_bytes(Key::Fec.text(), text) {
            Some(Key::Fec)
        } else if same_bytes(Key::Pids.text(), text) {
            Some(Key::Pids)
        } else if same_bytes(Key::Addpids.text(), text) {
            Some(Key::Addpids)
        } else if same_bytes(Key::Delpids.text(), text) {
            Some(Key::Delpids)
        } else {
            None
        }
    }
}
