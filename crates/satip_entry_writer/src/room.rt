//! The room for one line.

ghost use Rattle.std.specs.Prelude.{◌≡◌, ◌*◌, ◌≤◌, [], codes, length, decimal, IfOk};
ghost use Rattle.satip_entry_writer.specs.Sheets.{WroteText, WroteHex};
ghost use Rattle.satip_entry_writer.specs.Fields.{u8_text, u16_text, u32_text, u64_text};

use itoa::Buffer;
use satip_base::Want;
use std::alloc::Global;
use std::marker::Model;

const ROOM: usize = 1048576;

/// The room for one line of a journal: 1048576 bytes, which are taken when it is made.
#[derive(Drop)]
pub struct LineRoom {
    bytes: Vec<u8>,
    count: usize,
}

impl Model for LineRoom {
    ghost use Rattle.satip_entry_writer.specs.Sheets.{Sheet};

    ghost Value = { Sheet };

    ghost use Rattle.satip_entry_writer.specs.RoomFields.{sheet_of, IsSound};

    ghost view = { sheet_of };

    ghost invariant = { IsSound };
}

impl LineRoom {
    /// Creates an empty room. Takes all the memory that a `LineRoom` ever uses.
    pub fn make(alloc: Global) -> Result<LineRoom, Want>
        ensures ok { IfOk result (λ line. line ≡ record { text = []; spare = 1048576 }) }
    {
        match vec![in alloc; 0; ROOM] {
            Ok(bytes) => Ok(LineRoom { bytes, count: 0 }),
            Err(_) => Err(Want),
        }
    }

    /// Returns the line.
    pub fn bytes(&self) -> &[u8]
        ensures bytes { result.now ≡ self.now.text }
    {
        &self.bytes[..self.count]
    }

    // Drops the line, and keeps the memory.
    pub(crate) fn clear(&mut self)
        ensures empty { self.new ≡ record { text = []; spare = 1048576 } }
    {
        self.count = 0;
    }

    // Appends bytes as they are.
    pub(crate) fn write(&mut self, bytes: &[u8])
        requires room { length bytes.now ≤ self.old.spare }
        ensures wrote { WroteText self.old bytes.now self.new }
    {
        let end = self.count + bytes.len();
        self.bytes[self.count..end].copy_from_slice(bytes);
        self.count = end;
    }

    // Appends a number in decimal.
    pub(crate) fn write_number(&mut self, number: u64)
        requires room { length (decimal number) ≤ self.old.spare }
        ensures wrote { WroteText self.old (decimal number) self.new }
    {
        self.write(Buffer::new().format(number).as_bytes());
    }

    // Ends the line.
    pub(crate) fn end(&mut self)
        requires room { 1 ≤ self.old.spare }
        ensures wrote { WroteText self.old (codes "\n") self.new }
    {
        self.write(b"\n");
    }

    // Appends bytes in lower-case hexadecimal digits.
    pub(crate) fn encode(&mut self, bytes: &[u8])
        requires room { 2 * length bytes.now ≤ self.old.spare }
        ensures wrote { WroteHex self.old bytes.now self.new }
    {
        let end = self.count + 2 * bytes.len();
        let _ = hex::encode_to_slice(bytes, &mut self.bytes[self.count..end]);
        self.count = end;
    }

    #[tactic(auto, unfolding(crate::specs::Fields::u8_text))]
    pub(crate) fn encode_u8(&mut self, number: u8)
        requires room { 2 ≤ self.old.spare }
        ensures wrote { WroteHex self.old (u8_text number) self.new }
    {
        self.encode(&[number]);
    }

    #[tactic(auto, unfolding(crate::specs::Fields::u16_text))]
    pub(crate) fn encode_u16(&mut self, number: u16)
        requires room { 4 ≤ self.old.spare }
        ensures wrote { WroteHex self.old (u16_text number) self.new }
    {
        let bytes: [u8; 2] = number.to_be_bytes();
        self.encode(&bytes);
    }

    #[tactic(auto, unfolding(crate::specs::Fields::u32_text))]
    pub(crate) fn encode_u32(&mut self, number: u32)
        requires room { 8 ≤ self.old.spare }
        ensures wrote { WroteHex self.old (u32_text number) self.new }
    {
        let bytes: [u8; 4] = number.to_be_bytes();
        self.encode(&bytes);
    }

    #[tactic(auto, unfolding(crate::specs::Fields::u64_text))]
    pub(crate) fn encode_u64(&mut self, number: u64)
        requires room { 16 ≤ self.old.spare }
        ensures wrote { WroteHex self.old (u64_text number) self.new }
    {
        let bytes: [u8; 8] = number.to_be_bytes();
        self.encode(&bytes);
    }
}
