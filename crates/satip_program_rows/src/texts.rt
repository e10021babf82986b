//! Texts of a file of rows, in which escapes, digits and repeated parts are written out.

use crate::faults::Fault;
use std::alloc::Global;
use std::mem;

/// A text that has a name.
#[derive(Drop)]
pub(crate) struct Let {
    pub(crate) name: String,
    pub(crate) bytes: Vec<u8>,
}

/// A text that was written out.
#[derive(Drop)]
pub(crate) struct Written {
    pub(crate) bytes: Vec<u8>,
    /// Whether the text ends with a single backslash, which stands for no byte.
    pub(crate) cut: bool,
}

/// Writes a text out. `\r`, `\n`, `\t`, `\\`, `\{`, `\}`, `\<`, `\>` and `\xHH` are bytes,
/// `<N*TEXT>` is TEXT N times, `{TEXT}` is TEXT in lower-case digits, and `$NAME;` is the text of
/// that name.
pub(crate) fn write_out(alloc: Global, lets: &[Let], text: &str) -> Result<Written, Fault> {
    let mut writer = Writer {
        alloc,
        lets,
        bytes: Vec::new(alloc),
        open: Vec::new(alloc),
        state: State::Plain,
        name: Vec::new(alloc),
    };
    for byte in text.as_bytes() {
        writer.take(*byte)?;
    }
    writer.end()
}

// What the next byte belongs to.
#[derive(Clone, Copy)]
enum State {
    Plain,
    Escape,
    // The first and the second digit of a byte.
    High,
    Low(u8),
    // The number of a repeated part.
    Times(usize),
    // The name of a text.
    Name,
}

// A part that isn't at its end: how often it is repeated, or None for digits, and the bytes before
// it.
#[derive(Drop)]
struct Open {
    times: Option<usize>,
    before: Vec<u8>,
}

// The bytes of the innermost part so far.
#[derive(Drop)]
struct Writer<'l> {
    alloc: Global,
    lets: &'l [Let],
    bytes: Vec<u8>,
    open: Vec<Open>,
    state: State,
    name: Vec<u8>,
}

impl Writer<'_> {
    fn take(&mut self, byte: u8) -> Result<(), Fault> {
        match self.state {
            State::Plain => self.take_plain(byte),
            State::Escape => self.take_escape(byte),
            State::High => {
                self.state = State::Low(digit(byte)?);
                Ok(())
            }
            State::Low(high) => {
                let low = digit(byte)?;
                self.push(high.wrapping_mul(16).wrapping_add(low))
            }
            State::Times(times) => self.take_times(times, byte),
            State::Name => self.take_name(byte),
        }
    }

    fn push(&mut self, byte: u8) -> Result<(), Fault> {
        self.state = State::Plain;
        self.bytes.push(byte)?;
        Ok(())
    }

    fn take_plain(&mut self, byte: u8) -> Result<(), Fault> {
        match byte {
            b'\\' => self.state = State::Escape,
            b'<' => self.state = State::Times(0),
            b'$' => self.state = State::Name,
            b'{' => self.open(None)?,
            b'}' => self.close_digits()?,
            b'>' => self.close_repeated()?,
            _ => self.bytes.push(byte)?,
        }
        Ok(())
    }

    fn take_escape(&mut self, byte: u8) -> Result<(), Fault> {
        match byte {
            b'r' => self.push(b'\r'),
            b'n' => self.push(b'\n'),
            b't' => self.push(b'\t'),
            b'\\' | b'{' | b'}' | b'<' | b'>' => self.push(byte),
            b'x' => {
                self.state = State::High;
                Ok(())
            }
            _ => Err(Fault::Escape),
        }
    }

    fn take_times(&mut self, times: usize, byte: u8) -> Result<(), Fault> {
        match byte {
            b'*' => self.open(Some(times)),
            b'0'..=b'9' => {
                let digit = (byte - b'0') as usize;
                self.state = State::Times(times.saturating_mul(10).saturating_add(digit));
                Ok(())
            }
            _ => Err(Fault::Number),
        }
    }

    fn take_name(&mut self, byte: u8) -> Result<(), Fault> {
        if byte != b';' {
            self.name.push(byte)?;
            return Ok(());
        }
        let name = mem::replace(&mut self.name, Vec::new(self.alloc));
        let Some(found) = find(self.lets, &name) else {
            return Err(Fault::NoText);
        };
        self.state = State::Plain;
        self.bytes.extend_from_slice(&found.bytes)?;
        Ok(())
    }

    fn open(&mut self, times: Option<usize>) -> Result<(), Fault> {
        self.state = State::Plain;
        let before = mem::replace(&mut self.bytes, Vec::new(self.alloc));
        self.open.push(Open { times, before })?;
        Ok(())
    }

    fn close_digits(&mut self) -> Result<(), Fault> {
        let Some(Open { times, before }) = self.open.pop() else {
            return Err(Fault::Bracket);
        };
        if times.is_some() {
            return Err(Fault::Bracket);
        }
        let part = mem::replace(&mut self.bytes, before);
        let digits = hex::encode(self.alloc, part.as_slice())?;
        self.bytes.extend_from_slice(digits.as_str().as_bytes())?;
        Ok(())
    }

    fn close_repeated(&mut self) -> Result<(), Fault> {
        let Some(Open { times, before }) = self.open.pop() else {
            return Err(Fault::Bracket);
        };
        let Some(times) = times else {
            return Err(Fault::Bracket);
        };
        let part = mem::replace(&mut self.bytes, before);
        repeat(&mut self.bytes, &part, times)
    }

    fn end(self) -> Result<Written, Fault> {
        let cut = match self.state {
            State::Plain => false,
            State::Escape => true,
            _ => return Err(Fault::Escape),
        };
        if !self.open.is_empty() {
            return Err(Fault::Bracket);
        }
        Ok(Written {
            bytes: self.bytes,
            cut,
        })
    }
}

fn find<'l>(lets: &'l [Let], name: &[u8]) -> Option<&'l Let> {
    lets.iter()
        .find(|found| found.name.as_str().as_bytes() == name)
}

fn digit(byte: u8) -> Result<u8, Fault> {
    match byte {
        b'0'..=b'9' => Ok(byte - b'0'),
        b'a'..=b'f' => Ok(byte - b'a' + 10),
        _ => Err(Fault::Escape),
    }
}

fn repeat(bytes: &mut Vec<u8>, part: &[u8], times: usize) -> Result<(), Fault> {
    for _ in 0..times {
        bytes.extend_from_slice(part)?;
    }
    Ok(())
}
