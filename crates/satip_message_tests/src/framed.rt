//! Texts of which the first message is taken.

use crate::checks::check;
use satip_frame::{Framer, Step};
use std::alloc::Global;
use std::process::Abort;

/// A framer that has just told the first message of a text. Asserts that there is one.
pub(crate) fn framer_at(rt: &impl Abort, alloc: Global, name: &str, text: &[u8]) -> Framer {
    let mut framer = Framer::make(alloc).expect(rt, "out of memory");
    framer.feed(text);
    check(rt, name, framer.next(), Step::Message);
    framer
}
