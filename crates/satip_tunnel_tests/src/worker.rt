//! A tunnel's worker over memory: an RTSP and an HTTP connection.
ghost use Rattle.satip_interleave.specs.Histories.{TunnelLegal};
ghost use Rattle.satip_turn.specs.Shown.{IsOf, Knows};

use crate::checks::check;
use crate::connections::KEY;
use crate::setting::shared;
use satip_desk::WorkerKit;
use satip_fixtures::CLIENT;
use satip_fixtures::texts::{OPTIONS, OPTIONS_REPLY};
use satip_interleave::{SharedTunnel, TunnelCaller, TunnelPass};
use satip_memory::{Handed, MemoryConn, MemoryDoors, MemoryPacer};
use satip_tunnel::{WorkerRoom, run_tunnel_worker};
use satip_worker::WorkerEnd;
use satip_world::{ConnEnd, DoorKind};
use std::alloc::Global;
use std::process::Abort;
use std::sync::Wait;

/// A GET of a target that isn't served.
const GET: &[u8] = b"GET /a HTTP/1.1\r\n\r\n";

const NOT_FOUND: &[u8] = b"HTTP/1.1 404 Not Found\r\nConnection: close\r\n\r\n";

type Kit = WorkerKit<MemoryDoors, (), MemoryPacer>;

// Adds a connection that receives this text.
fn add(rt: &impl Abort, alloc: Global, doors: &mut MemoryDoors, kind: DoorKind, text: &[u8]) {
    let Ok(conn) = MemoryConn::make(alloc, &[text], &[], &[], 0) else {
        rt.panic("out of memory");
    };
    doors.add(kind, CLIENT, conn).expect(rt, "out of memory");
}

// Makes doors by which an RTSP and an HTTP connection come.
fn kit(rt: &impl Abort, alloc: Global) -> Kit {
    let mut doors = MemoryDoors::make(alloc, 2, &[], &[]).expect(rt, "out of memory");
    add(rt, alloc, &mut doors, DoorKind::Rtsp, OPTIONS);
    add(rt, alloc, &mut doors, DoorKind::Http, GET);
    WorkerKit {
        doors,
        outlet: (),
        pacer: MemoryPacer::new(),
        key: KEY,
    }
}

// Runs the worker, and asserts how it ended, and how many entries were made.
fn work<R: Wait + Sync + Abort>(
    rt: &R,
    alloc: Global,
    server: &SharedTunnel,
    pass: TunnelPass,
    kit: &mut Kit,
)
    requires of { IsOf pass server.now }
    requires knows { Knows (TunnelLegal server.now.setting) pass }
{
    let mut room = WorkerRoom::make(alloc).expect(rt, "out of memory");
    let mut caller = TunnelCaller { rt, server, pass };
    let end = run_tunnel_worker(&mut caller, kit, 1, &mut room);
    let got = (end, caller.pass.place());
    check(rt, "end and entries", got, (WorkerEnd::Closed, 5));
}

const REPLIES: &[&[u8]] = &[OPTIONS_REPLY, NOT_FOUND];

// Asserts that both connections were handed back as done, and each was sent its reply.
fn check_served(rt: &impl Abort, handed: &[Handed], replies: &[&'static [u8]]) {
    check(rt, "connections", handed.len(), 2);
    for (handed, reply) in handed.iter().zip(replies) {
        let got = (handed.end, handed.conn.sent());
        check(rt, "end and reply", got, (ConnEnd::Done, *reply));
    }
}

#[test]
fn a_worker_serves_both_kinds(rt: HostRuntime) {
    let mut kit = kit(&rt, rt.alloc());
    let (server, pass) = shared(&rt, rt.alloc());
    work(&rt, rt.alloc(), &server, pass, &mut kit);
    check_served(&rt, kit.doors.returned(), REPLIES);
}
