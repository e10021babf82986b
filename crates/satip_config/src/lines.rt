//! The lines that the programs print.

ghost use Rattle.std.specs.Prelude.{◌≡◌, ◌≤◌, [], length};
ghost use Rattle.satip_config.specs.Keys.{key_text};
ghost use Rattle.satip_config.specs.FaultText.{fault_text};
ghost use Rattle.satip_config.specs.Lines.{Says, configuration_line, number_line};

use crate::fault::ConfigFault;
use crate::key::ConfigKey;
use satip_base::{Sink, Strip};

/// Sends a line to the errors sink. A fault of the sink is ignored; an empty line isn't sent.
pub fn say<E: Sink>(line: &[u8], errors: &mut E)
    ensures says { Says E.tells
        (E.drain errors.old) (E.drain errors.new)
        line.now }
{
    if !line.is_empty() {
        errors.put(line);
    }
}

/// Prints the line of the first fault of a configuration.
pub(crate) fn print_fault(fault: ConfigFault, line: &mut Strip)
    requires empty { line.old ≡ [] }
    ensures printed { line.new ≡ configuration_line fault }
{
    line.write(b"configuration: ");
    fault_is_short(fault);
    fault.print(line);
    line.write(b"\n");
}

/// Prints words, a number after them, and LF.
#[tactic(auto, using(satip_base::proofs::NumberLemmas::digit_bounds))]
pub(crate) fn print_number(words: &[u8], number: u64, line: &mut Strip)
    requires empty { line.old ≡ [] }
    requires short { length words.now ≤ 20 }
    ensures printed { line.new ≡ number_line words.now number }
{
    line.write(words);
    line.write_number(number);
    line.write(b"\n");
}

// Proves that the text of a fault has at most 33 bytes.
fn fault_is_short(fault: ConfigFault)
    ensures short { length (fault_text fault) ≤ 33 }
{
    match fault {
        ConfigFault::Long => {}
        ConfigFault::NotToml => {}
        ConfigFault::Shape(key) => key_is_short(key),
        ConfigFault::Value(key) => key_is_short(key),
        ConfigFault::Want => {}
    }
}

#[tactic(auto, using(crate::proofs::LineLemmas::key_room))]
fn key_is_short(key: ConfigKey)
    ensures short { length (key_text key) ≤ 24 }
{
    let _number = key.number;
}
