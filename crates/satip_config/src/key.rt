//! The keys of a configuration, each with its table.
ghost use Rattle.std.specs.Prelude.{◌≡◌};

use satip_base::Strip;
use std::fmt;

/// The kind of table that has a key.
#[derive(Clone, Copy, Debug, PartialEq, Eq)]
pub enum ConfigTable {
    /// The document itself.
    Top,
    /// An entry of the array `frontend`.
    Frontend,
    /// An entry of the array `mux`.
    Mux,
}

/// The name of a key, which the text has before the `=`.
#[derive(Clone, Copy, Debug, PartialEq, Eq)]
pub enum ConfigName {
    Address,
    RtspPort,
    HttpPort,
    Timeout,
    Workers,
    Frontend,
    Sources,
    Systems,
    Mux,
    Src,
    Freq,
    Pol,
    Msys,
    Sr,
    File,
}

/// A key of a configuration: its table, the number of the table among the entries, and its name.
/// Entries are numbered from 1; at the top the number is 0.
#[derive(Clone, Copy, Debug, PartialEq, Eq)]
pub struct ConfigKey {
    pub table: ConfigTable,
    pub number: u16,
    pub name: ConfigName,
}

impl ConfigName {
    ghost use Rattle.std.specs.Prelude.{◌≤◌, length};
    ghost use Rattle.satip_config.specs.Keys.{name_text};

    /// Returns the name as configurations write it.
    pub fn text(self) -> &'static str
        ensures text { result.now ≡ name_text self }
        ensures short { length result.now ≤ 9 }
    {
        match self {
            ConfigName::Address => "address",
            ConfigName::RtspPort => "rtsp_port",
            ConfigName::HttpPort => "http_port",
            ConfigName::Timeout => "timeout",
            ConfigName::Workers => "workers",
            ConfigName::Frontend => "frontend",
            ConfigName::Sources => "sources",
            ConfigName::Systems => "systems",
            ConfigName::Mux => "mux",
            ConfigName::Src => "src",
            ConfigName::Freq => "freq",
            ConfigName::Pol => "pol",
            ConfigName::Msys => "msys",
            ConfigName::Sr => "sr",
            ConfigName::File => "file",
        }
    }
}

impl ConfigKey {
    ghost use Rattle.satip_config.specs.Keys.{top_key, front_key, mux_key};

    /// Returns a key of the document itself.
    pub fn top(name: ConfigName) -> ConfigKey
        ensures key { result ≡ top_key name }
    {
        ConfigKey {
            table: ConfigTable::Top,
            number: 0,
            name,
        }
    }

    /// Returns a key of the front end of this number.
    pub fn front(number: u16, name: ConfigName) -> ConfigKey
        ensures key { result ≡ front_key number name }
    {
        ConfigKey {
            table: ConfigTable::Frontend,
            number,
            name,
        }
    }

    /// Returns a key of the multiplex of this number.
    pub fn mux(number: u16, name: ConfigName) -> ConfigKey
        ensures key { result ≡ mux_key number name }
    {
        ConfigKey {
            table: ConfigTable::Mux,
            number,
            name,
        }
    }
}

impl ConfigKey {
    ghost use Rattle.std.specs.Prelude.{◌+◌, ◌≤◌, length};
    ghost use Rattle.satip_base.specs.Printed.{Printed};
    ghost use Rattle.satip_config.specs.Keys.{key_text};

    /// Appends the key as messages print it: `timeout`, `frontend.2.sources`, `mux.1.freq`.
    #[tactic(auto, using(crate::proofs::Printing::number_room))]
    pub fn print(self, strip: &mut Strip)
        requires room { length strip.old + 24 ≤ 1600 }
        ensures printed { Printed strip.old (key_text self) strip.new }
    {
        let name = self.name.text().as_bytes();
        match self.table {
            ConfigTable::Top => strip.write(name),
            ConfigTable::Frontend => {
                strip.write(b"frontend.");
                strip.write_number(self.number as u64);
                strip.write(b".");
                strip.write(name);
            }
            ConfigTable::Mux => {
                strip.write(b"mux.");
                strip.write_number(self.number as u64);
                strip.write(b".");
                strip.write(name);
            }
        }
    }
}

/// Prints the key as messages print it: `timeout`, `frontend.2.sources`, `mux.1.freq`.
impl fmt::Display for ConfigKey {
    ghost use Rattle.std.specs.Prelude.{Some};
    ghost use Rattle.satip_config.specs.Keys.{key_text};

    ghost output = { λ key. Some (key_text key) };

    fn fmt<W: fmt::Write>(&self, f: &mut fmt::Formatter<W>) -> fmt::Result {
        let name = self.name.text();
        let number = self.number;
        match self.table {
            ConfigTable::Top => write!(f, "{name}"),
            ConfigTable::Frontend => write!(f, "frontend.{number}.{name}"),
            ConfigTable::Mux => write!(f, "mux.{number}.{name}"),
        }
    }
}
