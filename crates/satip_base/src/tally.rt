//! A count that only contracts read.

ghost use Rattle.std.specs.Prelude.{◌≡◌, ◌+◌, ℕ};
ghost use Rattle.std.specs.Borrow.{ftrue};

use std::marker::Model;

// The number of bytes taken. It uses no memory and has no greatest value.
#[derive(Drop)]
pub(crate) struct Tally {
    pub ghost bytes: { ℕ },
}

impl Model for Tally {
    ghost also_owns = { λ _. ftrue };
}

// It owns nothing.
unsafe impl Send for Tally {}

impl Tally {
    pub(crate) fn new() -> Tally
        ensures none { result.bytes ≡ 0 }
    {
        Tally {}
    }

    pub(crate) fn with(_before: &Tally, _more: &u64) -> Tally
        ensures more { result.bytes ≡ _before.now.bytes + _more.now }
    {
        Tally {}
    }
}
