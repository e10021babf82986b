//! The session that a client was given.

ghost use Rattle.std.specs.Prelude.{◌≡◌, ◌<◌, ◌≤◌, length, IfNone, IfSome};
ghost use Rattle.satip_client.specs.Leases.{terms_of};

use crate::grants::Grant;
use std::marker::Model;

/// The most bytes of a session's name: the head of a reply has no more.
const SESSION: usize = 8192;

/// The session's name, the seconds that it lives without a request, and its stream. It allocates no
/// memory.
#[derive(Drop)]
pub struct Lease {
    room: [u8; SESSION],
    count: usize,
    timeout: u32,
    stream: u16,
}

impl Model for Lease {
    ghost use Rattle.std.specs.Prelude.{take, ◌≤◌};
    ghost use Rattle.satip_client.specs.Leases.{Terms};

    ghost Value = { Terms };

    ghost view = { λ l. record {
      session = take l.count l.room;
      timeout = l.timeout;
      stream = l.stream;
    } };

    ghost invariant = { λ l. l.count ≤ 8192 };
}

impl Lease {
    /// Copies a grant. Returns `None` if its session has more than 8192 bytes, as that of a reply
    /// never has.
    pub fn of(grant: &Grant) -> Option<Lease>
        ensures lease { IfSome result (λ lease. lease ≡ terms_of grant.now) }
        ensures long { IfNone result (8192 < length grant.now.session.now) }
    {
        let session = grant.session;
        if session.len() > SESSION {
            return None;
        }
        let mut room = [0; SESSION];
        room[..session.len()].copy_from_slice(session);
        Some(Lease {
            room,
            count: session.len(),
            timeout: grant.timeout,
            stream: grant.stream,
        })
    }

    /// Returns the session's name, as the Session header of SETUP's reply has it (RFC 2326, 12.37).
    pub fn session(&self) -> &[u8]
        ensures session { result.now ≡ self.now.session }
        ensures short { length self.now.session ≤ 8192 }
    {
        &self.room[..self.count]
    }

    /// Returns the seconds without a request after which the server ends the session (RFC 2326,
    /// 12.37).
    pub fn timeout(&self) -> u32
        ensures timeout { result ≡ self.now.timeout }
    {
        self.timeout
    }

    /// Returns the number of the stream, from the header `com.ses.streamID` (SAT>IP 1.2.2, 3.5.3).
    pub fn stream(&self) -> u16
        ensures stream { result ≡ self.now.stream }
    {
        self.stream
    }
}
