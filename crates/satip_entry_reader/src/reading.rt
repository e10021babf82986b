//! The parts of a record, read from the front of its bytes.

ghost use Rattle.std.specs.Prelude.{◌≡◌, ◌++◌, IfSome, length};
ghost use Rattle.std.specs.Option.{option_copied};
ghost use Rattle.satip_entry_writer.specs.Fields.{u8_text, u16_text, u32_text, u64_text, bool_text};
ghost use Rattle.satip_entry_reader.specs.Reading.{behind, u8_read, u16_read, u32_read, u64_read, bool_read};
ghost use Rattle.satip_entry_reader.specs.ReadingLists.{read_bytes};

use std::marker::Model;

/// The bytes of a record that aren't read yet. Each call reads one value from their front. It
/// returns None if they don't begin with one; the rest is then unspecified.
#[derive(Drop)]
pub struct Reading<'a> {
    rest: &'a [u8],
}

impl<'a> Model for Reading<'a> {
    ghost use Rattle.std.specs.Prelude.{ℕ, List};

    ghost Value = { List ℕ };

    ghost view = { λ r. r.rest.now };
}

impl<'a> Reading<'a> {
    /// Creates a reading of these bytes, of which none is read yet.
    pub fn new(bytes: &'a [u8]) -> Reading<'a>
        ensures bytes { result ≡ bytes.now }
    {
        Reading { rest: bytes }
    }

    /// Reads the next `count` bytes, and returns them where they are.
    #[tactic(auto, unfolding(crate::specs::ReadingLists::read_bytes))]
    pub fn read_bytes(&mut self, count: usize) -> Option<&'a [u8]>
        ensures read { behind (option_copied result) self.new ≡ read_bytes count self.old }
        ensures front { IfSome result (λ taken. self.old ≡ taken.now ++ self.new) }
        ensures count { IfSome result (λ taken. length taken.now ≡ count) }
    {
        if count > self.rest.len() {
            return None;
        }
        let (taken, rest) = self.rest.split_at(count);
        self.rest = rest;
        Some(taken)
    }

    /// Reads a byte.
    #[tactic(auto, unfolding(crate::specs::Reading::u8_read, satip_entry_writer::specs::Fields::u8_text))]
    pub fn read_u8(&mut self) -> Option<u8>
        ensures read { behind result self.new ≡ u8_read self.old }
        ensures front { IfSome result (λ x. self.old ≡ u8_text x ++ self.new) }
    {
        let Some((first, rest)) = self.rest.split_first() else {
            return None;
        };
        self.rest = rest;
        Some(*first)
    }

    /// Reads a number of 16 bits, high byte first.
    #[tactic(auto, unfolding(crate::specs::Reading::u16_read, satip_entry_writer::specs::Fields::u8_text, satip_entry_writer::specs::Fields::u16_text))]
    pub fn read_u16(&mut self) -> Option<u16>
        ensures read { behind result self.new ≡ u16_read self.old }
        ensures front { IfSome result (λ x. self.old ≡ u16_text x ++ self.new) }
    {
        let Some(high) = self.read_u8() else {
            return None;
        };
        let Some(low) = self.read_u8() else {
            return None;
        };
        Some(high as u16 * 256 + low as u16)
    }

    /// Reads a number of 32 bits, high byte first.
    #[tactic(auto, unfolding(crate::specs::Reading::u32_read, satip_entry_writer::specs::Fields::u16_text, satip_entry_writer::specs::Fields::u32_text))]
    pub fn read_u32(&mut self) -> Option<u32>
        ensures read { behind result self.new ≡ u32_read self.old }
        ensures front { IfSome result (λ x. self.old ≡ u32_text x ++ self.new) }
    {
        let Some(high) = self.read_u16() else {
            return None;
        };
        let Some(low) = self.read_u16() else {
            return None;
        };
        Some(high as u32 * 65536 + low as u32)
    }

    /// Reads a number of 64 bits, high byte first.
    #[tactic(auto, unfolding(crate::specs::Reading::u64_read, satip_entry_writer::specs::Fields::u32_text, satip_entry_writer::specs::Fields::u64_text))]
    pub fn read_u64(&mut self) -> Option<u64>
        ensures read { behind result self.new ≡ u64_read self.old }
        ensures front { IfSome result (λ x. self.old ≡ u64_text x ++ self.new) }
    {
        let Some(high) = self.read_u32() else {
            return None;
        };
        let Some(low) = self.read_u32() else {
            return None;
        };
        Some(high as u64 * 4294967296 + low as u64)
    }

    /// Reads a bool: 0 or 1.
    #[tactic(auto, unfolding(crate::specs::Reading::bool_read))]
    pub fn read_bool(&mut self) -> Option<bool>
        ensures read { behind result self.new ≡ bool_read self.old }
        ensures front { IfSome result (λ x. self.old ≡ bool_text x ++ self.new) }
    {
        let Some(place) = self.read_u8() else {
            return None;
        };
        match place {
            0 => Some(false),
            1 => Some(true),
            _ => None,
        }
    }
}
