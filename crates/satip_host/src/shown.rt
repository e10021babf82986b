//! Names of recordings in lines for people.

use satip_base::Text;
use std::fmt;

/// A name as part of one line: each control character is shown as a question mark.
#[derive(Drop)]
pub struct Shown<'a>(pub &'a Text);

impl fmt::Display for Shown<'_> {
    fn fmt<W: fmt::Write>(&self, f: &mut fmt::Formatter<W>) -> fmt::Result {
        let name = str::from_utf8(self.0.bytes()).unwrap_or("");
        for letter in name.chars() {
            f.write_char(if letter.is_control() { '?' } else { letter })?;
        }
        Ok(())
    }
}
