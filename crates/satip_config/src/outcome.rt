//! The outcomes of commands: their exit statuses, and their lines on the errors sink.

ghost use Rattle.std.specs.Prelude.{◌≡◌, []};
ghost use Rattle.satip_config.specs.Lines.{Says};
ghost use Rattle.satip_config.specs.Outcomes.{line_of, outcome_of_reading, status_of};

use crate::fault::ConfigFault;
use crate::lines::{print_fault, print_number, say};
use crate::reading::ConfigurationEnd;
use satip_base::{Sink, Strip};

/// The outcome of a command whose words are known.
#[derive(Clone, Copy, Debug, PartialEq, Eq)]
pub enum Outcome {
    /// The command did its work.
    Done,
    /// The configuration has this first fault.
    Configuration(ConfigFault),
    /// The first wrong line of the script has this number, from 1.
    Script(u64),
    /// The first wrong line of the journals has this number, from 1.
    Journals(u64),
    /// No configuration was opened, or its source or the input failed.
    InputFault,
    /// The output failed.
    OutputFault,
    /// The doors of a worker failed, or the desk gave no kits.
    DoorsFault,
    /// The input is longer than 67108864 bytes.
    TooLong,
    /// The history is full.
    HistoryFull,
    /// A reply to SETUP or PLAY has this status, other than 200.
    Refused(u16),
    /// The bytes received aren't the awaited reply, or it gives no session or no stream.
    BadReply,
    /// A reply or the packets didn't arrive in time.
    Silent,
    /// The connection or the inlet failed, or the desk gave none.
    PeerFault,
    /// The connection ended before the reply.
    Closed,
    /// Out of memory.
    OutOfMemory,
}

impl Outcome {
    /// Returns the program's exit status.
    pub fn status(self) -> u8
        ensures status { result ≡ status_of self }
    {
        match self {
            Outcome::Done => 0,
            Outcome::Configuration(_) => 3,
            Outcome::Script(_) | Outcome::Journals(_) => 4,
            Outcome::InputFault => 5,
            Outcome::OutputFault => 6,
            Outcome::DoorsFault => 7,
            Outcome::TooLong => 8,
            Outcome::HistoryFull => 9,
            Outcome::Refused(_) => 10,
            Outcome::BadReply => 11,
            Outcome::Silent => 12,
            Outcome::PeerFault => 13,
            Outcome::Closed => 14,
            Outcome::OutOfMemory => 70,
        }
    }

    /// Prints the line on the errors sink; prints nothing for `Done`.
    pub fn print(self, line: &mut Strip)
        requires empty { line.old ≡ [] }
        ensures printed { line.new ≡ line_of self }
    {
        match self {
            Outcome::Done => {}
            Outcome::Configuration(fault) => print_fault(fault, line),
            Outcome::Script(number) => print_number(b"script: line ", number, line),
            Outcome::Journals(number) => print_number(b"journal: line ", number, line),
            Outcome::InputFault => line.write(b"input fault\n"),
            Outcome::OutputFault => line.write(b"output fault\n"),
            Outcome::DoorsFault => line.write(b"doors fault\n"),
            Outcome::TooLong => line.write(b"input too long\n"),
            Outcome::HistoryFull => line.write(b"history full\n"),
            Outcome::Refused(code) => print_number(b"refused ", code as u64, line),
            Outcome::BadReply => line.write(b"bad reply\n"),
            Outcome::Silent => line.write(b"silent\n"),
            Outcome::PeerFault => line.write(b"peer fault\n"),
            Outcome::Closed => line.write(b"closed\n"),
            Outcome::OutOfMemory => line.write(b"out of memory\n"),
        }
    }

    /// Logs the line on the errors sink. Writes nothing for `Done`.
    pub fn tell<E: Sink>(self, errors: &mut E)
        ensures says { Says E.tells
            (E.drain errors.old) (E.drain errors.new)
            (line_of self) }
    {
        let mut line = Strip::new();
        self.print(&mut line);
        say(line.bytes(), errors);
    }
}

impl From<ConfigurationEnd> for Outcome {
    ghost from_gives = { λ end outcome. outcome ≡ outcome_of_reading end };

    fn from(end: ConfigurationEnd) -> Outcome {
        match end {
            ConfigurationEnd::Fault(fault) => Outcome::Configuration(fault),
            ConfigurationEnd::SourceFailed => Outcome::InputFault,
            ConfigurationEnd::OutOfMemory => Outcome::OutOfMemory,
        }
    }
}
