//! Journals of which one byte is another.

use crate::checks::check;
use crate::runs::run_by;
use satip_fixtures::texts::CONFIGURATION;
use std::alloc::Global;
use std::process::Abort;

// A session: SETUP, a tick at 1000, PLAY, two packets, a tick at 1040, TEARDOWN, and the stop. The
// last tick sends a datagram and a report. `*` stands for the digits of a packet of PID 16. Between
// brackets stand the digits that nothing of what was answered and sent depends on: the numbers of
// the callers, whom a verdict isn't told; the start and the low digits of the first tick, as no
// moment before the second tick is shown; the peer and the draw of PLAY and of TEARDOWN, as a
// session has those of its SETUP; and a PID list of TEARDOWN, whose query isn't read.
const SESSION: &[u8] = b"\
start [0]\n\
entry 0 [1] 00c0a801140000000a11223344ffff0100000001000200000001010100ad5dd6010001000101010101\
0101000055f00101030003000000100011000001057805790000c80000000089525453502f312e3020323030204f4b\
0d0a435365713a20310d0a53657373696f6e3a20303030303030303130303030303030613b74696d656f75743d3630\
0d0a5472616e73706f72743a205254502f4156503b756e69636173743b636c69656e745f706f72743d313430302d31\
3430310d0a636f6d2e7365732e73747265616d49443a20310d0a0d0a0000\n\
entry 1 [3] 0200000000000003[e8]0200000000000000\n\
entry 2 [1] 00[c0a80114][0000000a11223344ffff]0100000002000301000101000000010000000a0000000000\
0000000000000000000000c8000000006d525453502f312e3020323030204f4b0d0a435365713a20320d0a53657373\
696f6e3a20303030303030303130303030303030610d0a5254502d496e666f3a2075726c3d727473703a2f2f313932\
2e3136382e312e31302f73747265616d3d313b7365713d36353533350d0a0d0a0000\n\
entry 3 [2] 0300010000000000000001*030000010000000000000001000000000000\n\
entry 4 [2] 0300010000000000000001*030000010000000000000001000000000000\n\
entry 5 [3] 0200000000000004100200000000000002c0a801140578000001848021ffff00016da011223344**c0\
a8011405790000009880c800061122334483aa7e810a3d70a300016da0000000010000017881ca000511223344010c\
3139322e3136382e312e3130000080cc00181122334453455331000000527665723d312e303b7372633d313b74756e\
65723d312c3234302c312c31352c31313336312e37352c682c64766273322c3870736b2c6f6e2c302e33352c323230\
30302c32333b706964733d302c31362c31370000\n\
entry 6 [1] 00[c0a80114][0000000a11223344ffff]0100000003000401000101000000010000000a0000000000\
00000000000[0]0000000000c8000000001c525453502f312e3020323030204f4b0d0a435365713a20330d0a0d0a00\
00\n\
entry 7 [0] 080201000000000000\n";

// A journal, and of each of its bytes whether it may be another digit.
#[derive(Drop)]
struct Marked {
    text: Vec<u8>,
    free: Vec<bool>,
}

impl Marked {
    fn push(&mut self, rt: &impl Abort, byte: u8, free: bool) {
        self.text.push(byte).expect(rt, "out of memory");
        self.free.push(free).expect(rt, "out of memory");
    }

    // Appends bytes that may not be other ones.
    fn push_fixed(&mut self, rt: &impl Abort, bytes: &[u8]) {
        for byte in bytes {
            self.push(rt, *byte, false);
        }
    }

    // Appends the digits of a packet of PID 16.
    fn push_packet(&mut self, rt: &impl Abort) {
        self.push_fixed(rt, b"47001010");
        for _digit in 0..368 {
            self.push(rt, b'f', false);
        }
    }
}

// Reads the marks of a session.
fn read_marks(rt: &impl Abort, alloc: Global, text: &[u8]) -> Marked {
    let mut marked = Marked {
        text: Vec::new(alloc),
        free: Vec::new(alloc),
    };
    let mut free = false;
    for byte in text {
        match *byte {
            b'[' => free = true,
            b']' => free = false,
            b'*' => marked.push_packet(rt),
            byte => marked.push(rt, byte, free),
        }
    }
    marked
}

// Returns another digit; of what is no digit, a digit.
fn other(byte: u8) -> u8 {
    match byte {
        b'0'..=b'8' => byte + 1,
        b'9' => b'a',
        b'a'..=b'e' => byte + 1,
        _ => b'0',
    }
}

// Tells whether the verdict on the text is `yes`.
fn is_yes(rt: &impl Abort, alloc: Global, text: &[u8]) -> bool {
    let ran = run_by(rt, alloc, "audit", CONFIGURATION, text);
    ran.output().starts_with(b"yes")
}

// Returns a text whose byte at this place is another one.
fn changed(rt: &impl Abort, alloc: Global, text: &[u8], at: usize, byte: u8) -> Vec<u8> {
    let mut text = Vec::from_slice(alloc, text).expect(rt, "out of memory");
    if let Some(place) = text.get_mut(at) {
        *place = byte;
    }
    text
}

// Asserts whether the verdict is `yes` if the byte at this place is this one.
fn check_byte(rt: &impl Abort, alloc: Global, text: &[u8], at: usize, byte: u8, legal: bool) {
    let found = is_yes(rt, alloc, &changed(rt, alloc, text, at, byte));
    check(rt, "place, byte, yes", (at, byte, found), (at, byte, legal));
}

// Asserts that the verdict is `yes` of other bytes at this place exactly if that is another digit,
// and it may be one.
fn check_place(rt: &impl Abort, alloc: Global, text: &[u8], at: usize, byte: u8, free: bool) {
    check_byte(rt, alloc, text, at, other(byte), free);
    check_byte(rt, alloc, text, at, b' ', byte == b' ');
    check_byte(rt, alloc, text, at, b'\n', byte == b'\n');
}

// Asserts it of each place.
fn check_places(rt: &impl Abort, alloc: Global, session: &Marked) {
    for (at, (byte, free)) in session.text.iter().zip(&session.free).enumerate() {
        check_place(rt, alloc, &session.text, at, *byte, *free);
    }
}

#[test]
fn the_session_is_legal(rt: HostRuntime) {
    let session = read_marks(&rt, rt.alloc(), SESSION);
    check(&rt, "yes", is_yes(&rt, rt.alloc(), &session.text), true);
}

#[test]
fn a_byte_that_is_another_one_is_seen(rt: HostRuntime) {
    check_places(&rt, rt.alloc(), &read_marks(&rt, rt.alloc(), SESSION));
}
