//! Faults of configurations.
use crate::key::ConfigKey;
use satip_base::Strip;
use std::alloc::AllocFailed;
use std::fmt;

/// The fault of a text that gives no configuration. Each but `Want` is the text's first fault.
#[derive(Clone, Copy, Debug, PartialEq, Eq)]
pub enum ConfigFault {
    /// The text has more than 1048576 bytes.
    Long,
    /// The bytes aren't a TOML document.
    NotToml,
    /// The key is required and missing, or its value is of a wrong kind.
    Shape(ConfigKey),
    /// The key's value is of the right kind and isn't allowed.
    Value(ConfigKey),
    /// Out of memory, which says nothing about the text.
    Want,
}

impl ConfigFault {
    ghost use Rattle.std.specs.Prelude.{◌+◌, ◌≤◌, length};
    ghost use Rattle.satip_base.specs.Printed.{Printed};
    ghost use Rattle.satip_config.specs.FaultText.{fault_text};

    /// Appends the fault as messages print it: `value of mux.1.freq`.
    pub fn print(self, strip: &mut Strip)
        requires room { length strip.old + 33 ≤ 1600 }
        ensures printed { Printed strip.old (fault_text self) strip.new }
    {
        match self {
            ConfigFault::Long => strip.write(b"too long"),
            ConfigFault::NotToml => strip.write(b"not toml"),
            ConfigFault::Shape(key) => {
                strip.write(b"shape of ");
                key.print(strip);
            }
            ConfigFault::Value(key) => {
                strip.write(b"value of ");
                key.print(strip);
            }
            ConfigFault::Want => strip.write(b"out of memory"),
        }
    }
}

/// Prints the fault as messages print it: `value of mux.1.freq`.
impl fmt::Display for ConfigFault {
    ghost use Rattle.std.specs.Prelude.{Some};
    ghost use Rattle.satip_config.specs.FaultText.{fault_text};

    ghost output = { λ fault. Some (fault_text fault) };

    fn fmt<W: fmt::Write>(&self, f: &mut fmt::Formatter<W>) -> fmt::Result {
        match self {
            ConfigFault::Long => write!(f, "too long"),
            ConfigFault::NotToml => write!(f, "not toml"),
            ConfigFault::Shape(key) => write!(f, "shape of {key}"),
            ConfigFault::Value(key) => write!(f, "value of {key}"),
            ConfigFault::Want => write!(f, "out of memory"),
        }
    }
}

impl std::error::Error for ConfigFault {}

impl<T: Drop> From<AllocFailed<T>> for ConfigFault {
    ghost use Rattle.std.specs.Prelude.{◌≡◌};
    ghost use Rattle.satip_config.specs.declared.fault.ConfigFault.TheVariants.{Want};

    ghost from_gives = { λ _ fault. fault ≡ Want };

    fn from(_refused: AllocFailed<T>) -> ConfigFault {
        ConfigFault::Want
    }
}
