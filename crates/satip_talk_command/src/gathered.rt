//! Gathers replies, so that many are sent by one call.

ghost use Rattle.std.specs.Prelude.{◌≡◌, [], IfOk};
ghost use Rattle.satip_base.specs.Streams.{Puts};
ghost use Rattle.satip_talk_command.specs.Gathering.{Gathers};

use satip_base::{Put, Sink, Want, append_reserved, with_room};
use std::alloc::Global;
use std::marker::Model;

const ROOM: usize = 65536;

/// Bytes that wait to be put, at most 65536. All memory is taken when it is made. The first bytes
/// after a flush are put at once, so that the client doesn't wait for them.
#[derive(Drop)]
pub(crate) struct Gathered {
    waiting: Vec<u8>,
    begun: bool,
}

impl Model for Gathered {
    ghost use Rattle.std.specs.Prelude.{List, ℕ, ◌≤◌, vec_len, vec_capacity};

    ghost Value = { List ℕ };

    ghost view = { λ g. g.waiting.items };

    ghost invariant = { λ g. (vec_len g.waiting ≤ 65536) × (65536 ≤ vec_capacity g.waiting) };
}

impl Gathered {
    /// Creates it without any bytes. Takes all the memory that it ever uses.
    pub(crate) fn make(alloc: Global) -> Result<Gathered, Want>
        ensures empty { IfOk result (λ gathered. gathered ≡ []) }
    {
        Ok(Gathered {
            waiting: with_room(alloc, ROOM)?,
            begun: false,
        })
    }

    /// Adds bytes to those that wait. The first bytes after a flush are put at once. So are bytes
    /// for which there is no room, after those that wait.
    pub(crate) fn gather<O: Sink>(&mut self, bytes: &[u8], output: &mut O) -> Put
        ensures gathers { Gathers O.tells
            (O.drain output.old) (O.drain output.new)
            self.old self.new bytes.now result }
    {
        if self.begun && bytes.len() <= ROOM - self.waiting.len() {
            append_reserved(&mut self.waiting, bytes);
            return Put::Whole;
        }
        match self.flush(output) {
            Put::Whole => self.begin(bytes, output),
            Put::Failed => Put::Failed,
        }
    }

    // Puts bytes while none wait. Later bytes will wait.
    fn begin<O: Sink>(&mut self, bytes: &[u8], output: &mut O) -> Put
        ensures puts { Puts O.tells
            (O.drain output.old) (O.drain output.new)
            bytes.now result }
        ensures same { self.new ≡ self.old }
    {
        self.begun = true;
        output.put(bytes)
    }

    /// Puts the bytes that wait, in one call, or in none if there are none.
    pub(crate) fn flush<O: Sink>(&mut self, output: &mut O) -> Put
        ensures puts { Puts O.tells
            (O.drain output.old) (O.drain output.new)
            self.old result }
        ensures empty { self.new ≡ [] }
    {
        self.begun = false;
        if self.waiting.is_empty() {
            return Put::Whole;
        }
        let put = output.put(&self.waiting);
        self.waiting.clear();
        put
    }
}
