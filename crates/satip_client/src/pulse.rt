//! Keeping a session alive.

ghost use Rattle.std.specs.Prelude.{◌≡◌, ◌+◌, ◌<◌, ◌≤◌};
ghost use Rattle.satip_client.specs.Pulses.{Beats, is_due_at, talk};

use crate::ending::RecordEnd;
use crate::lease::Lease;
use crate::page::Page;
use satip_base::Put;
use satip_world::{Clock, Conn};

/// The moment of the last mark, in milliseconds, and the number of the next request.
#[derive(Clone, Copy, Debug, PartialEq, Eq)]
pub struct Pulse {
    pub mark: u64,
    pub cseq: u32,
}

/// Reads the clock, and sends OPTIONS if half of the session's time is over since the mark; then
/// this reading is the mark.
pub fn keep_alive<W: Conn, M: Clock>(
    wire: &mut W,
    moment: &mut M,
    lease: &Lease,
    pulse: &mut Pulse,
    page: &mut Page,
) -> Result<(), RecordEnd>
    requires few { pulse.old.cseq < 4294967295 }
    ensures beats { Beats W.tells (talk (W.line wire.old) (M.dial moment.old) pulse.old)
        (talk (W.line wire.new) (M.dial moment.new) pulse.new)
        page.old.address lease.now result }
    ensures address { page.new.address ≡ page.old.address }
    ensures counted { pulse.new.cseq ≤ pulse.old.cseq + 1 }
{
    let now = moment.now();
    if !is_due(lease.timeout(), pulse.mark, now) {
        return Ok(());
    }
    page.write_options(lease, pulse.cseq);
    match wire.send(page.bytes()) {
        Put::Whole => {
            pulse.mark = now;
            pulse.cseq += 1;
            Ok(())
        }
        Put::Failed => Err(RecordEnd::PeerFault),
    }
}

fn is_due(timeout: u32, mark: u64, now: u64) -> bool
    ensures due { result ≡ is_due_at timeout mark now }
{
    now >= mark && now - mark >= timeout as u64 * 500
}
