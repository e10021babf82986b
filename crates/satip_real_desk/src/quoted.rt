//! Values of JSON (RFC 8259).

use satip_host::UtcTime;
use std::fmt;

/// A text as a string of JSON.
#[derive(Clone, Copy)]
pub(crate) struct Quoted<'a>(pub(crate) &'a str);

impl fmt::Display for Quoted<'_> {
    fn fmt<W: fmt::Write>(&self, f: &mut fmt::Formatter<W>) -> fmt::Result {
        f.write_char('"')?;
        for letter in self.0.chars() {
            match letter {
                '"' | '\\' => {
                    f.write_char('\\')?;
                    f.write_char(letter)?;
                }
                _ if letter.is_control() => {
                    let code = u32::from(letter);
                    write!(f, "\\u{code:04x}")?;
                }
                _ => f.write_char(letter)?,
            }
        }
        f.write_char('"')
    }
}

/// A time as a string of JSON, or null.
#[derive(Clone, Copy)]
pub(crate) struct Moment(pub(crate) Option<UtcTime>);

impl fmt::Display for Moment {
    fn fmt<W: fmt::Write>(&self, f: &mut fmt::Formatter<W>) -> fmt::Result {
        match self.0 {
            Some(time) => write!(f, "\"{time}\""),
            None => f.write_str("null"),
        }
    }
}

/// A count of thousandths as a number of JSON.
#[derive(Clone, Copy)]
pub(crate) struct Thousandths(pub(crate) u64);

impl fmt::Display for Thousandths {
    fn fmt<W: fmt::Write>(&self, f: &mut fmt::Formatter<W>) -> fmt::Result {
        let (whole, rest) = (self.0 / 1000, self.0 % 1000);
        write!(f, "{whole}.{rest:03}")
    }
}

/// Writes an array of JSON.
pub(crate) fn write_all<W: fmt::Write, T: fmt::Display>(
    f: &mut fmt::Formatter<W>,
    all: &[T],
) -> fmt::Result {
    f.write_char('[')?;
    let mut mark = "";
    for each in all {
        write!(f, "{mark}{each}")?;
        mark = ",";
    }
    f.write_char(']')
}
