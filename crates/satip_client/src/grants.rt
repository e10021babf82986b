//! The grants in a reply to a client.

ghost use Rattle.std.specs.Prelude.{◌≡◌};
ghost use Rattle.satip_client.specs.Grants.{AcceptsAs, GrantsAs};

use crate::reply::ReplyView;

/// The grant of a reply to SETUP: the session, the seconds that it lives without a request, and the
/// stream (SAT>IP 1.2.2, section 3.5.11).
#[derive(Drop)]
pub struct Grant<'a> {
    pub session: &'a [u8],
    pub timeout: u32,
    pub stream: u16,
}

/// Why a reply gives nothing.
#[derive(Clone, Copy, Debug, PartialEq, Eq)]
pub enum ReplyFault {
    /// It doesn't answer the request, or lacks what its answer has.
    Bad,
    /// It has this status, other than 200.
    Refused(u16),
}

/// Returns the grant of a reply to SETUP. Returns `Bad` exactly if its `CSeq` isn't 1, or if it has
/// the status 200 and names no session or no stream. Else returns `Refused` exactly if it has
/// another status.
pub fn grant_of<'a>(view: &ReplyView<'a>) -> Result<Grant<'a>, ReplyFault>
    ensures grants { GrantsAs view.now result }
{
    accept(view, 1)?;
    let Some(session) = view.session else {
        return Err(ReplyFault::Bad);
    };
    let Some(stream) = view.stream else {
        return Err(ReplyFault::Bad);
    };
    Ok(Grant {
        session,
        timeout: view.timeout,
        stream,
    })
}

/// Checks that a reply accepts the request with this number. Returns `Bad` exactly if its `CSeq` is
/// another or none. Else returns `Refused` exactly if its status isn't 200.
pub fn accept(view: &ReplyView, cseq: u32) -> Result<(), ReplyFault>
    ensures accepts { AcceptsAs cseq view.now result }
{
    let Some(found) = view.cseq else {
        return Err(ReplyFault::Bad);
    };
    if found != cseq {
        return Err(ReplyFault::Bad);
    }
    if view.status != 200 {
        return Err(ReplyFault::Refused(view.status));
    }
    Ok(())
}
