//! Doors: they accept connections and take them back.

ghost use Rattle.std.specs.Prelude.{ℕ};

use crate::connections::Conn;
use satip_base::Peer;

/// The protocol of a connection.
#[derive(Clone, Copy, Debug, PartialEq, Eq)]
pub enum DoorKind {
    Rtsp,
    Http,
}

/// How the service of a connection ended.
#[derive(Clone, Copy, Debug, PartialEq, Eq)]
pub enum ConnEnd {
    /// Its input ended, or it was sent a reply that closes it.
    Done,
    /// A receive failed.
    ReadFault,
    /// A send failed.
    WriteFault,
    /// The history of the server is full.
    Spent,
    /// Out of memory.
    Want,
}

/// The result of a call of `next`.
#[derive(Drop)]
pub enum Door<C> {
    /// A connection, with its protocol and its client.
    Came { kind: DoorKind, peer: Peer, conn: C },
    /// No connection came yet, and the count of idles rose.
    Idle,
    /// No further connection comes, by this call and each later one.
    End,
    /// The doors failed, and their count of faults rose.
    Failed,
}

/// A source of connections.
pub trait Doors {
    ghost use Rattle.satip_world.specs.Halls.{Hall, Opens, HandsBack};

    /// The type of the connections of these doors.
    type Conn: Conn + Drop + Send;

    // The limit, the connections accepted and handed back, whether the doors ended, and the counts.
    ghost hall: { Self → Hall };

    // A fact that holds always or never. If it holds, the doors end by their limit alone, and so
    // never if the limit is 0.
    ghost by_limit: { Type 0 };

    /// Waits for a while for the next connection. A new connection has received and sent nothing.
    fn next(&mut self) -> Door<Self::Conn>
        ensures opens { Opens by_limit Self.Conn.line (hall self.old) (hall self.new) result };

    /// Takes a connection back, with the end of its service.
    fn back(&mut self, conn: Self::Conn, kind: DoorKind, peer: Peer, end: ConnEnd)
        ensures back { HandsBack (hall self.old) (hall self.new) kind peer (Self.Conn.line conn)
            end };
}
