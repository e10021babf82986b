//! Compares a run with its row, and prints what differs.

use crate::faults::Fault;
use crate::rows::Row;
use satip_memory_desk::Ran;
use std::fmt;

// The most bytes of a text that are printed.
const SHOWN: usize = 160;

// Which devices the desk gave, by what came back.
#[derive(Clone, Copy, Debug, PartialEq, Eq)]
struct Asked {
    config: bool,
    wire: bool,
    inlet: bool,
    clock: bool,
}

/// Prints the name of a row and what differs. Returns whether nothing does.
pub(crate) fn report(rt: &impl Print, row: &Row, ran: &Ran) -> Result<bool, Fault> {
    println!(rt; "{}", row.name)?;
    let status = compare_status(rt, row.wanted.status, ran.status)?;
    let output = compare_text(rt, "output", &row.wanted.output, ran.output.sent())?;
    let errors = compare_text(rt, "error", &row.wanted.errors, ran.errors.sent())?;
    let sent = compare_text(rt, "sent", &row.wanted.sent, sent_of(ran))?;
    let asked = compare_asked(rt, asked_by(row), asked_in(ran))?;
    Ok(status && output && errors && sent && asked)
}

// Returns the bytes that were sent on the connection of a client.
fn sent_of(ran: &Ran) -> &[u8] {
    match &ran.wire {
        Some(wire) => wire.sent(),
        None => b"",
    }
}

// Returns which devices a row's words must ask for: those of an unknown command line none, and
// others a configuration and a connection that there are. An inlet is asked for after the
// connection, and a clock by each recording.
fn asked_by(row: &Row) -> Asked {
    let known = row.wanted.status != 2;
    let config = match &row.config {
        Some(config) => row.has_word(1, config.name.as_str()),
        None => false,
    };
    let wire = row.lent.pieces.is_some();
    Asked {
        config: known && config,
        wire: known && wire,
        inlet: known && wire && row.lent.datagrams.is_some(),
        clock: known && row.has_word(0, "record"),
    }
}

fn asked_in(ran: &Ran) -> Asked {
    Asked {
        config: ran.config,
        wire: ran.wire.is_some(),
        inlet: ran.inlet,
        clock: ran.moment,
    }
}

fn compare_status(rt: &impl Print, wanted: u8, got: u8) -> Result<bool, Fault> {
    if wanted == got {
        return Ok(true);
    }
    println!(rt; "  status: wanted {wanted}, got {got}")?;
    Ok(false)
}

fn compare_asked(rt: &impl Print, wanted: Asked, got: Asked) -> Result<bool, Fault> {
    if wanted == got {
        return Ok(true);
    }
    println!(rt; "  asked: wanted {wanted:?}, got {got:?}")?;
    Ok(false)
}

fn compare_text(rt: &impl Print, name: &str, wanted: &[u8], got: &[u8]) -> Result<bool, Fault> {
    if wanted == got {
        return Ok(true);
    }
    let at = first_difference(wanted, got);
    println!(rt; "  {name}: differs at byte {at}")?;
    let (wanted, got) = (Shown { bytes: wanted, at }, Shown { bytes: got, at });
    println!(rt; "    wanted {wanted}")?;
    println!(rt; "    got    {got}")?;
    Ok(false)
}

// Returns the place of the first byte that differs, or the length of the shorter text.
fn first_difference(left: &[u8], right: &[u8]) -> usize {
    for (at, (left, right)) in left.iter().zip(right).enumerate() {
        if left != right {
            return at;
        }
    }
    left.len().min(right.len())
}

// A text from a place on, with escapes for what can't be printed.
#[derive(Clone, Copy)]
struct Shown<'b> {
    bytes: &'b [u8],
    at: usize,
}

impl fmt::Display for Shown<'_> {
    fn fmt<W: fmt::Write>(&self, f: &mut fmt::Formatter<W>) -> fmt::Result {
        for byte in self.bytes.iter().skip(self.at).take(SHOWN) {
            match *byte {
                b'\r' => write!(f, "\\r")?,
                b'\n' => write!(f, "\\n")?,
                b' '..=b'~' => f.write_char(*byte as char)?,
                byte => write!(f, "\\x{byte:02x}")?,
            }
        }
        Ok(())
    }
}
