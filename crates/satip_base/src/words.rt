//! Texts that are kept.

ghost use Rattle.std.specs.Prelude.{◌≡◌, IfOk};
ghost use Rattle.std.specs.Str.{IsUtf8};

use crate::outcomes::Want;
use std::alloc::Global;
use std::marker::Model;

/// A text in UTF-8.
#[derive(Drop)]
pub struct Text {
    kept: String,
}

impl Model for Text {
    ghost use Rattle.std.specs.Prelude.{List, ℕ, string_bytes};

    ghost Value = { List ℕ };

    ghost view = { λ t. string_bytes t.kept };
}

impl Text {
    /// Returns a copy of a text. `Want` is out of memory.
    pub fn of(alloc: Global, text: &str) -> Result<Text, Want>
        ensures ok { IfOk result (λ kept. kept ≡ text.now) }
    {
        match String::from_str(alloc, text) {
            Ok(kept) => Ok(Text { kept }),
            Err(_) => Err(Want),
        }
    }

    /// Returns the bytes of the text, which are UTF-8.
    pub fn bytes(&self) -> &[u8]
        ensures bytes { result.now ≡ self.now }
        ensures utf8 { IsUtf8 self.now }
    {
        self.kept.as_str().as_bytes()
    }
}
