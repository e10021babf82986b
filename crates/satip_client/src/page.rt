//! The page on which a client writes its requests.

ghost use Rattle.std.specs.Prelude.{◌≡◌, ◌+◌, ◌≤◌, [], ◌++◌, length, decimal, IfOk};
ghost use Rattle.satip_client.specs.Pages.{blank_page};

use itoa::Buffer;
use satip_base::{Want, append_reserved, with_room};
use std::alloc::Global;
use std::marker::Model;

/// The most bytes of a request besides the server's address and the query: a session of 8192 bytes,
/// the other words and the numbers.
const OTHERS: usize = 8448;

/// The page on which a client writes its requests to a server for one stream, one after another. It
/// is created with the memory of the longest of them, and takes no further memory.
#[derive(Drop)]
pub struct Page<'a> {
    address: &'a [u8],
    query: &'a [u8],
    text: Vec<u8>,
}

impl<'a> Model for Page<'a> {
    ghost use Rattle.std.specs.Prelude.{◌+◌, ◌-◌, ◌≤◌, length, vec_capacity, vec_len};
    ghost use Rattle.satip_client.specs.Pages.{PageView};

    ghost Value = { PageView };

    ghost view = { λ p. record {
      address = p.address.now;
      query = p.query.now;
      text = p.text.items;
      spare = length p.address.now + length p.query.now + 8448 - vec_len p.text;
    } };

    ghost invariant = { λ p. (length p.address.now + length p.query.now + 8448
        ≤ vec_capacity p.text)
        × (vec_len p.text ≤ length p.address.now + length p.query.now + 8448) };
}

impl<'a> Page<'a> {
    /// Creates an empty page. `Want` is out of memory.
    pub fn make(alloc: Global, address: &'a [u8], query: &'a [u8]) -> Result<Page<'a>, Want>
        ensures blank { IfOk result (λ page. page ≡ blank_page address.now query.now) }
    {
        let Some(known) = address.len().checked_add(query.len()) else {
            return Err(Want);
        };
        let Some(room) = known.checked_add(OTHERS) else {
            return Err(Want);
        };
        Ok(Page {
            address,
            query,
            text: with_room(alloc, room)?,
        })
    }

    /// Returns the request that was written last.
    pub fn bytes(&self) -> &[u8]
        ensures bytes { result.now ≡ self.now.text }
    {
        &self.text
    }

    /// Returns the server's address.
    pub(crate) fn address(&self) -> &'a [u8]
        ensures address { result.now ≡ self.now.address }
        ensures size { length result.now ≡ length self.now.address }
    {
        self.address
    }

    /// Returns the query of the stream.
    pub(crate) fn query(&self) -> &'a [u8]
        ensures query { result.now ≡ self.now.query }
        ensures size { length result.now ≡ length self.now.query }
    {
        self.query
    }

    /// Drops the request that was written last.
    pub(crate) fn clear(&mut self)
        ensures text { self.new.text ≡ [] }
        ensures spare { self.new.spare
            ≡ length self.old.address + length self.old.query + 8448 }
        ensures address { self.new.address ≡ self.old.address }
    {
        self.text.clear();
    }

    /// Appends bytes.
    pub(crate) fn write(&mut self, bytes: &[u8])
        requires room { length bytes.now ≤ self.old.spare }
        ensures text { self.new.text ≡ self.old.text ++ bytes.now }
        ensures spare { self.new.spare + length bytes.now ≡ self.old.spare }
        ensures address { self.new.address ≡ self.old.address }
    {
        append_reserved(&mut self.text, bytes);
    }

    /// Appends a number, in decimal.
    pub(crate) fn write_number(&mut self, number: u64)
        requires room { length (decimal number) ≤ self.old.spare }
        ensures text { self.new.text ≡ self.old.text ++ decimal number }
        ensures spare { self.new.spare + length (decimal number) ≡ self.old.spare }
        ensures address { self.new.address ≡ self.old.address }
    {
        self.write(Buffer::new().format(number).as_bytes());
    }
}
