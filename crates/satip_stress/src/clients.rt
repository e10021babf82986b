//! The clients of a run.

ghost use Rattle.std.specs.Prelude.{◌≡◌};
ghost use Rattle.satip_stress.specs.Making.{first, second, draw_of};

use satip_base::{Draw, Peer, SessionId};

/// A client: its address, and its session.
#[derive(Clone, Copy, Debug, PartialEq, Eq)]
pub(crate) struct Client {
    pub(crate) peer: Peer,
    pub(crate) session: SessionId,
}

/// Returns the client at 10.0.0.2.
pub(crate) fn first_client() -> Client
    ensures first { result ≡ first }
{
    Client {
        peer: Peer { ip: 167772162 },
        session: SessionId { count: 1, word: 1 },
    }
}

/// Returns the client at 10.0.0.3.
pub(crate) fn second_client() -> Client
    ensures second { result ≡ second }
{
    Client {
        peer: Peer { ip: 167772163 },
        session: SessionId { count: 2, word: 2 },
    }
}

/// Returns the draw of a request: this number as word and SSRC, and sequence numbers from 0 on.
pub(crate) fn draw_of_number(number: u32) -> Draw
    ensures draw { result ≡ draw_of number }
{
    Draw {
        word: number,
        ssrc: number,
        first: 0,
    }
}
