//! Requests that are changed in place, since they are large.

ghost use Rattle.std.specs.Prelude.{◌≡◌};
ghost use Rattle.satip_stress.specs.Making.{first, options, play, adding, removing};
ghost use Rattle.satip_stress.specs.Running.{AreKept, IsOptions, IsAdding, IsRemoving};

use crate::clients::{Client, first_client};
use crate::making::{make_options, make_play, one_pid};
use satip_query::Query;
use satip_rtsp::{Request, SessionName};

/// An OPTIONS, and PLAYs of the first client that add and remove one PID.
#[derive(Drop)]
pub(crate) struct Kept {
    pub(crate) options: Request,
    pub(crate) adding: Request,
    pub(crate) removing: Request,
}

impl Kept {
    /// Creates one request of each kind.
    pub(crate) fn new() -> Kept
        ensures kept { AreKept result }
    {
        let mut adding = Query::new();
        adding.addpids = Some(one_pid(0));
        let mut removing = Query::new();
        removing.delpids = Some(one_pid(0));
        Kept {
            options: make_options(0, first_client()),
            adding: make_play(0, first_client(), adding),
            removing: make_play(0, first_client(), removing),
        }
    }
}

/// Changes a kept OPTIONS to that of this client.
pub(crate) fn renew_options(request: &mut Request, cseq: u32, client: Client)
    requires kept { IsOptions request.old }
    ensures renewed { request.new ≡ options cseq client }
{
    request.cseq = Some(cseq);
    request.session = SessionName::Named(client.session);
}

/// Changes a kept PLAY to one that adds this PID.
pub(crate) fn renew_adding(request: &mut Request, cseq: u32, pid: u8)
    requires kept { IsAdding request.old }
    ensures renewed { request.new ≡ play cseq first (adding pid) }
{
    request.cseq = Some(cseq);
    request.query.addpids = Some(one_pid(pid));
}

/// Changes a kept PLAY to one that removes this PID.
pub(crate) fn renew_removing(request: &mut Request, cseq: u32, pid: u8)
    requires kept { IsRemoving request.old }
    ensures renewed { request.new ≡ play cseq first (removing pid) }
{
    request.cseq = Some(cseq);
    request.query.delpids = Some(one_pid(pid));
}
