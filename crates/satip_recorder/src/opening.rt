//! The first and the last requests of a recording.

ghost use Rattle.std.specs.Prelude.{◌≡◌, ◌≤◌, ◌<◌, IfOk};
ghost use Rattle.satip_recorder.specs.Openings.{Leaves, Opens};
ghost use Rattle.satip_recorder.specs.Outsides.{link, setup_words};

use satip_base::Put;
use satip_client::{Heard, Lease, Page, RecordEnd, set_up, start};
use satip_world::{Clock, Conn};

/// Sets the stream up and lets it play. Reads the clock between the two; this reading is the mark.
pub(crate) fn open<W: Conn, M: Clock>(
    wire: &mut W,
    moment: &mut M,
    port: u16,
    page: &mut Page,
    mark: &mut u64,
) -> Result<Lease, RecordEnd>
    requires next { port ≤ 65534 }
    ensures opens { Opens W.tells (link (W.line wire.old) (M.dial moment.old))
        (link (W.line wire.new) (M.dial moment.new))
        (setup_words page.old.address page.old.query port) mark.new result }
    ensures address { page.new.address ≡ page.old.address }
{
    let mut heard = Heard::new();
    let lease = set_up(wire, port, page, &mut heard)?;
    *mark = moment.now();
    start(wire, &lease, page, &mut heard)?;
    Ok(lease)
}

/// Gives the stream back.
pub(crate) fn leave<W: Conn>(
    wire: &mut W,
    lease: &Lease,
    cseq: u32,
    page: &mut Page,
) -> Result<(), RecordEnd>
    ensures leaves { Leaves W.tells (W.line wire.old) (W.line wire.new) page.old.address
        lease.now cseq result }
{
    page.write_teardown(lease, cseq);
    match wire.send(page.bytes()) {
        Put::Whole => Ok(()),
        Put::Failed => Err(RecordEnd::PeerFault),
    }
}
