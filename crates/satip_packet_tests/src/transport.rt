//! Recordings in pieces.
ghost use Rattle.std.specs.Prelude.{◌≡◌, [], ◌∷◌, ◌++◌, replicate};
ghost use Rattle.satip_ts.specs.Recording.{cut_packets};

use crate::checks::check;
use crate::filled::{filled, filled_bytes};
use satip_ts::{Cutter, Packet};
use std::process::Abort;

// Bytes before a packet and a shorter rest are dropped.
fn worked_recording()
    ensures cut { cut_packets (replicate 5 0 ++ replicate 188 71 ++ 1 ∷ 71 ∷ replicate 187 2
        ++ replicate 100 71)
        ≡ replicate 188 71 ∷ (71 ∷ replicate 187 2) ∷ [] }
{}

// Whether the next packet is the one of this PID.
fn hands_out(cutter: &mut Cutter, pid: u16) -> bool {
    match cutter.next() {
        Some(packet) => {
            packet.pid() == pid && packet.bytes().as_slice() == filled_bytes(pid).as_slice()
        }
        None => false,
    }
}

#[test]
fn packets_of_a_recording(rt: HostRuntime) {
    let mut cutter = Cutter::new();
    let before = cutter.feed(b"\0\x01\x02\x03\x04");
    let first = cutter.feed(&filled_bytes(16));
    let second = cutter.feed(&filled_bytes(17));
    let rest = cutter.feed(&[0x47; 100]);
    check(
        &rt,
        "taken",
        [before, first, second, rest],
        [5, 188, 188, 100],
    );
    let handed = [hands_out(&mut cutter, 16), hands_out(&mut cutter, 17)];
    let over = cutter.next().is_none();
    check(&rt, "handed out", (handed, over), ([true, true], true));
}

// Feeds the packet of a PID byte by byte, and asserts that what is handed out is this packet.
// Returns how often one is.
fn feed_bytes(rt: &impl Abort, cutter: &mut Cutter, pid: u16) -> u8 {
    let mut handed = 0u8;
    for byte in filled_bytes(pid) {
        cutter.feed(&[byte]);
        if let Some(packet) = cutter.next() {
            handed = handed.saturating_add(1);
            check(rt, "a packet", Some(packet), filled(pid));
        }
    }
    handed
}

#[test]
fn one_byte_at_a_time(rt: HostRuntime) {
    let mut cutter = Cutter::new();
    let first = feed_bytes(&rt, &mut cutter, 1);
    let second = feed_bytes(&rt, &mut cutter, 2);
    let third = feed_bytes(&rt, &mut cutter, 3);
    check(&rt, "packets", [first, second, third], [1, 1, 1]);
}

#[test]
fn two_hundred_packets(rt: HostRuntime) {
    let mut cutter = Cutter::new();
    for pid in 0..200 {
        let taken = cutter.feed(&filled_bytes(pid));
        let handed = cutter.next().is_some();
        check(&rt, "a packet", (pid, taken, handed), (pid, 188, true));
    }
}

#[test]
fn no_more_than_4096_bytes_are_held(rt: HostRuntime) {
    let mut cutter = Cutter::new();
    let taken = [cutter.feed(&[0x47; 5000]), cutter.feed(&[0x47; 10])];
    let handed = cutter.next().is_some();
    let then = cutter.feed(&[0x47; 200]);
    check(&rt, "bytes", (taken, handed, then), ([4096, 0], true, 188));
}

fn pid_of(bytes: &[u8; 188]) -> Option<u16> {
    let packet = Packet::of(bytes)?;
    Some(packet.pid())
}

#[test]
fn thirteen_bits_are_the_pid(rt: HostRuntime) {
    let mut bytes = filled_bytes(0xfe);
    bytes[1] = 0xff;
    let pid = pid_of(&bytes);
    bytes[0] = 0x48;
    check(&rt, "PIDs", [pid, pid_of(&bytes)], [Some(8190), None]);
}
