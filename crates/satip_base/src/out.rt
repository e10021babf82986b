//! The output of one event: a reply and datagrams.

ghost use Rattle.std.specs.Prelude.{◌≡◌, ◌≢◌, ◌<◌, ◌≤◌, [], length, decimal, IfOk, slice_get};
ghost use Rattle.satip_base.specs.Output.{empty, shown, IsWithinRoom, Wrote, Sends, Extended};
ghost use Rattle.satip_base.specs.Texts.{address_text, id_text};

use crate::datagrams::Datagrams;
use crate::identity::SessionId;
use crate::limits::{EVENT_BYTES, EVENT_DATAGRAMS, REPLY_BYTES};
use crate::lists::{append_reserved, with_room};
use crate::network::Address;
use crate::outcomes::Want;
use itoa::Buffer;
use std::alloc::Global;
use std::marker::Model;

/// A reply of at most 131072 bytes, and at most 256 datagrams of 262144 bytes together. `make`
/// allocates all its memory.
#[derive(Drop)]
pub struct Out {
    reply: Vec<u8>,
    datagrams: Datagrams,
}

impl Model for Out {
    ghost use Rattle.satip_base.specs.Output.{Output};

    ghost Value = { Output };

    ghost use Rattle.satip_base.specs.OutFields.{output_of, IsSound};

    ghost view = { output_of };

    ghost invariant = { IsSound };
}

impl Out {
    /// Allocates all the memory that an `Out` ever uses. `Want` is out of memory.
    pub fn make(alloc: Global) -> Result<Out, Want>
        ensures ok { IfOk result (λ out. out ≡ empty) }
    {
        Ok(Out {
            reply: with_room(alloc, REPLY_BYTES)?,
            datagrams: Datagrams::make(alloc, EVENT_BYTES, EVENT_DATAGRAMS)?,
        })
    }

    /// Removes the reply and all datagrams, and keeps the memory.
    pub fn clear(&mut self)
        ensures empty { self.new ≡ empty }
    {
        self.reply.clear();
        self.datagrams.clear();
    }

    /// Returns the bytes of the reply; they are empty if there is no reply.
    pub fn reply(&self) -> &[u8]
        ensures reply { result.now ≡ self.now.reply }
    {
        &self.reply
    }

    /// Returns the number of datagrams.
    pub fn count(&self) -> usize
        ensures count { result ≡ length self.now.datagrams }
        ensures room { IsWithinRoom self.now }
    {
        self.datagrams.count()
    }

    /// Returns how many more bytes of datagrams there is room for.
    pub fn room(&self) -> usize
        ensures room { result ≡ self.now.datagram_spare }
    {
        self.datagrams.byte_spare()
    }

    /// Returns the datagram at `place`, from 0, and its address; `None` if `place` isn't below the
    /// count.
    pub fn datagram(&self, place: usize) -> Option<(Address, &[u8])>
        ensures datagram { shown result ≡ slice_get self.now.datagrams place }
    {
        self.datagrams.datagram(place)
    }

    /// Appends bytes to the reply.
    pub fn write(&mut self, bytes: &[u8])
        requires room { length bytes.now ≤ self.old.reply_spare }
        ensures wrote { Wrote self.old bytes.now self.new }
    {
        append_reserved(&mut self.reply, bytes);
    }

    /// Appends a number to the reply, in decimal.
    pub fn write_number(&mut self, number: u64)
        requires room { length (decimal number) ≤ self.old.reply_spare }
        ensures wrote { Wrote self.old (decimal number) self.new }
    {
        self.write(Buffer::new().format(number).as_bytes());
    }

    /// Appends an IPv4 address to the reply, in dotted decimal.
    #[tactic(auto, using(crate::proofs::Writing::address_steps), unfolding(crate::specs::Texts::address_text))]
    pub fn write_address(&mut self, ip: u32)
        requires room { length (address_text ip) ≤ self.old.reply_spare }
        ensures wrote { Wrote self.old (address_text ip) self.new }
    {
        self.write_number((ip / 16777216) as u64);
        self.write(b".");
        self.write_number((ip / 65536 % 256) as u64);
        self.write(b".");
        self.write_number((ip / 256 % 256) as u64);
        self.write(b".");
        self.write_number((ip % 256) as u64);
    }

    /// Appends a session's id to the reply.
    pub fn write_id(&mut self, id: SessionId)
        requires room { length (id_text id) ≤ self.old.reply_spare }
        ensures wrote { Wrote self.old (id_text id) self.new }
    {
        self.write(&id.text());
    }

    /// Appends a whole datagram.
    pub fn append(&mut self, to: Address, bytes: &[u8])
        requires count_room { self.old.count_spare ≢ 0 }
        requires room { length bytes.now ≤ self.old.datagram_spare }
        ensures sent { Sends self.old to bytes.now self.new }
    {
        self.datagrams.append(to, bytes);
    }

    /// Appends an empty datagram, which `extend` fills.
    pub fn begin(&mut self, to: Address)
        requires room { self.old.count_spare ≢ 0 }
        ensures begun { Sends self.old to [] self.new }
    {
        self.datagrams.append(to, b"");
    }

    /// Appends bytes to the last datagram.
    pub fn extend(&mut self, bytes: &[u8])
        requires begun { 0 < length self.old.datagrams }
        requires room { length bytes.now ≤ self.old.datagram_spare }
        ensures extended { Extended self.old bytes.now self.new }
    {
        self.datagrams.extend(bytes);
    }
}
