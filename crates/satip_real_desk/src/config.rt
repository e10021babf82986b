//! Why a configuration can't be used.

use std::{fmt, fs, io};
use toml::de::Error;

// The most bytes of a configuration.
const MOST: u64 = 1_048_576;

/// Why a configuration can't be used.
#[derive(Drop)]
pub(crate) enum ConfigFault {
    /// Its file can't be read.
    File(io::Error),
    /// It isn't TOML, from this line on.
    Text { line: usize, error: Error },
}

impl From<io::Error> for ConfigFault {
    fn from(error: io::Error) -> ConfigFault {
        ConfigFault::File(error)
    }
}

impl fmt::Display for ConfigFault {
    fn fmt<W: fmt::Write>(&self, f: &mut fmt::Formatter<W>) -> fmt::Result {
        match self {
            ConfigFault::File(error) => write!(f, "{error}"),
            ConfigFault::Text { line, error } => {
                write!(f, "line {line}: ")?;
                f.write_str(error.message())
            }
        }
    }
}

/// Checks that the configuration of this name can be read and is TOML. What isn't a regular file can
/// be read only once, by the program; nothing is checked of it, nor of a file that is too long.
pub(crate) fn check_config(rt: HostRuntime, path: &str) -> Result<(), ConfigFault> {
    let file = fs::metadata(&rt, path)?;
    let can_check = file.is_dir() || file.is_file() && file.len() <= MOST;
    if !can_check {
        return Ok(());
    }
    let text = fs::read_to_string(&rt, path)?;
    match toml::table_from_str(rt.alloc(), text.as_str()) {
        Ok(_) => Ok(()),
        Err(error) => Err(ConfigFault::Text {
            line: line_of(text.as_bytes(), &error),
            error,
        }),
    }
}

// Returns the line of an error in a text, from 1.
fn line_of(text: &[u8], error: &Error) -> usize {
    let start = match error.span() {
        Some(span) => span.start,
        None => 0,
    };
    let before = text.iter().take(start).filter(|byte| **byte == 10).count();
    before.saturating_add(1)
}
