//! The result of a run of the program over memory.

use crate::desk::MemoryDesk;
use satip_base::Text;
use satip_memory::{MemoryConn, MemorySink};
use std::alloc::Global;
use std::test::Fail;

/// The end of a run, what came back of what the desk gave, and what was written.
#[derive(Drop)]
pub struct Ran {
    /// The exit status.
    pub status: u8,
    /// Whether a configuration came back.
    pub config: bool,
    /// The connection of a recording, if one came back.
    pub wire: Option<MemoryConn>,
    /// Whether an inlet of a recording came back.
    pub inlet: bool,
    /// Whether a clock of a recording came back.
    pub moment: bool,
    /// The bytes on the output.
    pub output: MemorySink,
    /// The bytes on the errors sink.
    pub errors: MemorySink,
}

impl Ran {
    /// Tells whether the run ended with this status, this output and these errors.
    pub fn is(&self, status: u8, output: &[u8], errors: &[u8]) -> bool {
        self.status == status && self.output.sent() == output && self.errors.sent() == errors
    }
}

/// Creates a desk with the text of one configuration, c1.toml. Its takes with a number, from 1, in
/// `failing` fail.
pub fn desk_with(alloc: Global, configuration: &[u8], failing: &[u64]) -> Result<MemoryDesk, Fail> {
    let mut desk = MemoryDesk::make(alloc, 0);
    desk.add("c1.toml", configuration, failing)?;
    Ok(desk)
}

/// Returns the words of a command.
pub fn texts_of(alloc: Global, words: &[&str]) -> Result<Vec<Text>, Fail> {
    let mut texts = Vec::new(alloc);
    for word in words {
        texts.push(Text::of(alloc, word)?)?;
    }
    Ok(texts)
}
