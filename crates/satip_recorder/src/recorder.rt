//! The state of a recording.

ghost use Rattle.std.specs.Prelude.{◌≡◌, ◌+◌, ◌*◌, ◌≤◌, IfOk, false};
ghost use Rattle.satip_recorder.specs.Recordings.{IsFresh};

use crate::tape::Tape;
use crate::wish::Wish;
use satip_base::Want;
use satip_base::limits::PACKET;
use satip_client::{Page, Pulse};
use satip_rtp_receiver::Catcher;
use std::alloc::Global;

/// The number of turns for each packet, and the number of turns in addition.
const TURNS: (u32, u32) = (64, 10000);

/// The mark and the next number, the page for requests, the catcher, the bytes still to be written,
/// and the number of turns left. It is created with all the memory of a recording.
#[derive(Drop)]
pub(crate) struct Recorder<'a> {
    pub(crate) pulse: Pulse,
    pub(crate) page: Page<'a>,
    pub(crate) catcher: Catcher,
    pub(crate) tape: Tape,
    pub(crate) turns: u32,
}

impl<'a> Recorder<'a> {
    /// Creates a recorder of a stream. Its first request has number 3: SETUP and PLAY have 1 and 2.
    pub(crate) fn make(alloc: Global, wish: &Wish<'a>) -> Result<Recorder<'a>, Want>
        requires few { wish.now.count ≤ 1000000 }
        ensures fresh { IfOk result (IsFresh wish.now.count) }
        ensures address { IfOk result
            (λ recorder. recorder.page.address ≡ wish.now.address.now) }
        ensures query { IfOk result (λ recorder. recorder.page.query ≡ wish.now.query.now) }
    {
        Ok(Recorder {
            pulse: Pulse { mark: 0, cseq: 3 },
            page: Page::make(alloc, wish.address, wish.query)?,
            catcher: Catcher::make(alloc)?,
            tape: Tape {
                left: wish.count as usize * PACKET,
                muted: false,
            },
            turns: wish.count * TURNS.0 + TURNS.1,
        })
    }
}
