//! Reads files of rows. A file has these lines; it skips empty ones and those that begin with `#`:
//!
//! - `let NAME = TEXT` gives a text a name, for the lines after it.
//! - `row NAME` begins a row. No other row, of any file, has its name.
//! - `words WORD WORD ..`: the words after `satip`, each a text; `''` is the empty word.
//! - `config NAME FILE`: the desk opens the file under this name. Without it the desk opens
//! nothing.
//! - `status N`: the exit status that is wanted, if it isn't 0.
//! - `input`, `output`, `error` and `sent` begin what is read, and what must be written and be sent
//!   by a client. Each further line that begins with two spaces adds a text and a line feed; the
//!   line feed is left out if the line ends with a single backslash.
//! - `length N`: the input so far has N bytes.
//! - `wire` and `datagram` begin what comes in at a client: each further line that begins with two
//!   spaces is one piece or one datagram. Without them the desk has no connection or no inlet.
//! - `clock N N ..`: the moments that the clock of a client shows.
//!
//! `write_out` says what a text stands for.

use crate::faults::Fault;
use crate::rows::{Named, Row, add_piece};
use crate::texts::{Let, write_out};
use satip_base::Text;
use std::alloc::Global;
use std::mem;

// What a line of text is part of.
#[derive(Clone, Copy, PartialEq, Eq)]
enum Part {
    Nothing,
    Input,
    Output,
    Error,
    Sent,
    Wire,
    Datagram,
}

fn part_of(keyword: &str) -> Part {
    match keyword {
        "input" => Part::Input,
        "output" => Part::Output,
        "error" => Part::Error,
        "sent" => Part::Sent,
        "wire" => Part::Wire,
        "datagram" => Part::Datagram,
        _ => Part::Nothing,
    }
}

/// The rows that were read, and where the reader is in its file.
#[derive(Drop)]
pub(crate) struct Reader {
    alloc: Global,
    names: Vec<String>,
    lets: Vec<Let>,
    rows: Vec<Row>,
    // The row that isn't at its end, if one has begun.
    row: Row,
    begun: bool,
    part: Part,
    line: usize,
}

impl Reader {
    /// Creates a reader that has read no file.
    pub(crate) fn new(alloc: Global) -> Reader {
        Reader {
            alloc,
            names: Vec::new(alloc),
            lets: Vec::new(alloc),
            rows: Vec::new(alloc),
            row: Row::new(alloc),
            begun: false,
            part: Part::Nothing,
            line: 0,
        }
    }

    /// Returns the number of the line that was read last, from 1.
    pub(crate) fn line(&self) -> usize {
        self.line
    }

    /// Reads the text of a file, and returns its rows. Named texts of files before aren't known.
    pub(crate) fn read(&mut self, text: &str) -> Result<Vec<Row>, Fault> {
        self.line = 0;
        self.lets = Vec::new(self.alloc);
        for line in text.lines() {
            self.line = self.line.saturating_add(1);
            self.read_line(line)?;
        }
        self.end_row()?;
        Ok(mem::replace(&mut self.rows, Vec::new(self.alloc)))
    }

    fn read_line(&mut self, line: &str) -> Result<(), Fault> {
        if let Some(text) = line.strip_prefix("  ") {
            return self.add_text(text);
        }
        if line.is_empty() || line.starts_with("#") {
            return Ok(());
        }
        match line.split_once(" ") {
            Some((keyword, rest)) => self.read_keyword(keyword, rest),
            None => self.read_keyword(line, ""),
        }
    }

    fn read_keyword(&mut self, keyword: &str, rest: &str) -> Result<(), Fault> {
        self.part = part_of(keyword);
        match keyword {
            "let" => self.read_let(rest),
            "row" => self.begin_row(rest),
            _ if !self.begun => Err(Fault::NoRow),
            _ if self.part == Part::Nothing => self.read_value(keyword, rest),
            _ => self.begin_part(rest),
        }
    }

    fn read_value(&mut self, keyword: &str, rest: &str) -> Result<(), Fault> {
        match keyword {
            "words" => self.read_words(rest),
            "config" => self.read_config(rest),
            "clock" => self.read_clock(rest),
            "status" => self.read_status(rest),
            "length" => self.check_length(rest),
            _ => Err(Fault::Keyword),
        }
    }

    fn read_let(&mut self, rest: &str) -> Result<(), Fault> {
        let Some((name, text)) = rest.split_once(" = ") else {
            return Err(Fault::Form);
        };
        let written = write_out(self.alloc, &self.lets, text)?;
        let name = String::from_str(self.alloc, name)?;
        self.lets.push(Let {
            name,
            bytes: written.bytes,
        })?;
        Ok(())
    }

    fn begin_row(&mut self, name: &str) -> Result<(), Fault> {
        self.end_row()?;
        if name.is_empty() || self.names.iter().any(|other| other.as_str() == name) {
            return Err(Fault::RowName);
        }
        self.names.push(String::from_str(self.alloc, name)?)?;
        self.row.name = String::from_str(self.alloc, name)?;
        self.begun = true;
        Ok(())
    }

    fn end_row(&mut self) -> Result<(), Fault> {
        self.part = Part::Nothing;
        if self.begun {
            let row = mem::replace(&mut self.row, Row::new(self.alloc));
            self.rows.push(row)?;
        }
        self.begun = false;
        Ok(())
    }

    fn read_words(&mut self, rest: &str) -> Result<(), Fault> {
        if rest.is_empty() {
            return Ok(());
        }
        for word in rest.split(" ") {
            let word = read_word(self.alloc, &self.lets, word)?;
            self.row.words.push(word)?;
        }
        Ok(())
    }

    fn read_config(&mut self, rest: &str) -> Result<(), Fault> {
        let Some((name, file)) = rest.split_once(" ") else {
            return Err(Fault::Form);
        };
        self.row.config = Some(Named {
            name: String::from_str(self.alloc, name)?,
            file: String::from_str(self.alloc, file)?,
        });
        Ok(())
    }

    fn read_clock(&mut self, rest: &str) -> Result<(), Fault> {
        let mut moments = Vec::new(self.alloc);
        for moment in rest.split(" ") {
            moments.push(read_number(moment)?)?;
        }
        self.row.lent.moments = Some(moments);
        Ok(())
    }

    fn read_status(&mut self, rest: &str) -> Result<(), Fault> {
        match rest.parse::<u8>() {
            Ok(status) => self.row.wanted.status = status,
            Err(_) => return Err(Fault::Number),
        }
        Ok(())
    }

    // Checks that the input so far has this length.
    fn check_length(&mut self, rest: &str) -> Result<(), Fault> {
        if read_number(rest)? == self.row.input.len() as u64 {
            Ok(())
        } else {
            Err(Fault::Length)
        }
    }

    fn begin_part(&mut self, rest: &str) -> Result<(), Fault> {
        if !rest.is_empty() {
            return Err(Fault::Form);
        }
        match self.part {
            Part::Wire => self.row.lent.pieces = Some(Vec::new(self.alloc)),
            Part::Datagram => self.row.lent.datagrams = Some(Vec::new(self.alloc)),
            _ => {}
        }
        Ok(())
    }

    fn add_text(&mut self, text: &str) -> Result<(), Fault> {
        let mut written = write_out(self.alloc, &self.lets, text)?;
        match self.part {
            Part::Nothing => return Err(Fault::Stray),
            Part::Wire => return add_piece(&mut self.row.lent.pieces, written.bytes),
            Part::Datagram => return add_piece(&mut self.row.lent.datagrams, written.bytes),
            _ => {}
        }
        if !written.cut {
            written.bytes.push(b'\n')?;
        }
        self.append(&written.bytes)
    }

    // Appends bytes to the text that was begun.
    fn append(&mut self, bytes: &[u8]) -> Result<(), Fault> {
        match self.part {
            Part::Input => self.row.input.extend_from_slice(bytes)?,
            Part::Output => self.row.wanted.output.extend_from_slice(bytes)?,
            Part::Error => self.row.wanted.errors.extend_from_slice(bytes)?,
            Part::Sent => self.row.wanted.sent.extend_from_slice(bytes)?,
            _ => return Err(Fault::Stray),
        }
        Ok(())
    }
}

// Reads a word of the command line; `''` is the empty one.
fn read_word(alloc: Global, lets: &[Let], word: &str) -> Result<Text, Fault> {
    if word == "''" {
        return Ok(Text::of(alloc, "")?);
    }
    let written = write_out(alloc, lets, word)?;
    if written.cut || written.bytes.is_empty() {
        return Err(Fault::Form);
    }
    match std::str::from_utf8(&written.bytes) {
        Ok(text) => Ok(Text::of(alloc, text)?),
        Err(_) => Err(Fault::Word),
    }
}

fn read_number(text: &str) -> Result<u64, Fault> {
    match text.parse::<u64>() {
        Ok(number) => Ok(number),
        Err(_) => Err(Fault::Number),
    }
}
