//! Worked examples of the lines of journals.

ghost use Rattle.satip_entry_writer.specs.Rows.{SetupIsWritten, StartIsWritten, StopIsWritten, TickIsWritten};

/// States the lines of a start, a stop, a tick and a SETUP, worked out by hand. It does nothing;
/// its contract is the examples.
pub fn worked_lines()
    ensures start { StartIsWritten }
    ensures stop { StopIsWritten }
    ensures tick { TickIsWritten }
    ensures setup { SetupIsWritten }
{}
