//! Streams that go down connections as interleaved frames (RFC 2326, section 10.12).

use crate::steps::Call::{Ask, Drain, Enter, Leave, Tick};
use crate::steps::Step::{Give, Make, Reply};
use crate::steps::{ACCEPTED, GOING, REFUSED, Step, run};
use satip_fixtures::texts::SETUP_INTERLEAVED;
use satip_interleave::TunnelAnswer;
use std::alloc::Global;
use std::process::Abort;

const SETUP_REPLY: &[u8] = b"RTSP/1.0 200 OK\r\n\
    CSeq: 1\r\n\
    Session: 000000010000000a;timeout=60\r\n\
    Transport: RTP/AVP;unicast;client_port=1-2\r\n\
    com.ses.streamID: 1\r\n\r\n";

const PLAY: &[u8] =
    b"PLAY rtsp://192.168.1.10/stream=1 RTSP/1.0\r\nCSeq: 2\r\nSession: 000000010000000a\r\n\r\n";

/// A SETUP over UDP, which no connection of a tunnel takes.
const SETUP_UDP: &[u8] = b"SETUP rtsp://192.168.1.10/?src=1&freq=11361.75&pol=h&msys=dvbs2&sr=22000\
    &pids=0,16,17 RTSP/1.0\r\n\
    CSeq: 1\r\n\
    Transport: RTP/AVP;unicast;client_port=1400-1401\r\n\r\n";

/// A second session of the first stream.
const JOIN: &[u8] = b"SETUP rtsp://192.168.1.10/stream=1 RTSP/1.0\r\n\
    CSeq: 1\r\n\
    Transport: RTP/AVP/TCP;interleaved=0-1\r\n\r\n";

const PLAY_JOINED: &[u8] =
    b"PLAY rtsp://192.168.1.10/stream=1 RTSP/1.0\r\nCSeq: 2\r\nSession: 000000020000000a\r\n\r\n";

/// The head of the datagram of the first six packets: a frame of 1140 bytes on channel 0, and the
/// RTP header at 1040 milliseconds (RFC 3550, section 5.1).
const MEDIA_HEAD: &[u8] = b"$\x00\x04\x74\x80\x21\xff\xff\x00\x01\x6d\xa0\x11\x22\x33\x44";

/// A frame of 152 bytes on channel 1: a sender report, a source description and a description of
/// the stream (RFC 3550, section 6).
const REPORT: &[u8] =
    b"$\x01\x00\x98\x80\xc8\x00\x06\x11\x22\x33\x44\x83\xaa\x7e\x81\x0a\x3d\x70\xa3\x00\x01\x6d\
    \xa0\x00\x00\x00\x01\x00\x00\x04\x68\x81\xca\x00\x05\x11\x22\x33\x44\x01\x0c192.168.1.10\x00\
    \x00\x80\xcc\x00\x18\x11\x22\x33\x44SES1\x00\x00\x00\x52ver=1.0;\
    src=1;tuner=1,240,1,15,11361.75,h,dvbs2,8psk,on,0.35,22000,23;pids=0,16,17\x00\x00";

// The first connection enters and sets its stream up, which is at once told. The stream plays,
// with six packets between two ticks.
const PLAY_SIX: &[Step] = &[
    Make(Enter, TunnelAnswer::Lane(1)),
    Make(Ask(1, SETUP_INTERLEAVED), ACCEPTED),
    Reply(SETUP_REPLY, 0, b""),
    Make(Tick(1000), GOING),
    Make(Ask(1, PLAY), ACCEPTED),
    Give(6),
    Make(Tick(1040), GOING),
];

// The first connection leaves while its session plays. The next one has a number of its own, and
// no packet of that session.
const LEAVE_AND_ENTER: &[Step] = &[
    Make(Leave(1), TunnelAnswer::Left),
    Make(Enter, TunnelAnswer::Lane(2)),
    Give(7),
    Make(Drain(2), TunnelAnswer::Empty),
    Make(Drain(1), TunnelAnswer::Gone),
];

// Steps of a tunnel, each list so often.
type Row = (&'static str, &'static [(u32, &'static [Step])]);

const ROWS: &[Row] = &[
    (
        "packets and a report are frames",
        &[
            (1, PLAY_SIX),
            (
                1,
                &[
                    Make(Drain(1), TunnelAnswer::Frames(1300)),
                    Reply(MEDIA_HEAD, 6, REPORT),
                    Make(Drain(1), TunnelAnswer::Empty),
                ],
            ),
        ],
    ),
    (
        "UDP is no transport of a tunnel",
        &[(
            1,
            &[
                Make(Enter, TunnelAnswer::Lane(1)),
                Make(Ask(1, SETUP_UDP), REFUSED),
            ],
        )],
    ),
    (
        "the lane of an old session is not given again",
        &[(1, PLAY_SIX), (1, LEAVE_AND_ENTER)],
    ),
];

fn run_rows(rt: &impl Abort, alloc: Global, rows: &[Row]) {
    for (name, lists) in rows {
        run(rt, alloc, name, lists);
    }
}

#[test]
fn streams_go_down_as_their_rows_say(rt: HostRuntime) {
    run_rows(&rt, rt.alloc(), ROWS);
}

// Two connections play the same stream.
const PLAY_BOTH: &[Step] = &[
    Make(Enter, TunnelAnswer::Lane(1)),
    Make(Ask(1, SETUP_INTERLEAVED), ACCEPTED),
    Make(Ask(1, PLAY), ACCEPTED),
    Make(Enter, TunnelAnswer::Lane(2)),
    Make(Ask(2, JOIN), ACCEPTED),
    Make(Ask(2, PLAY_JOINED), ACCEPTED),
];

// A datagram of seven packets, which the second connection takes at once.
const GIVE_BOTH: &[Step] = &[Give(7), Make(Drain(2), TunnelAnswer::Frames(1332))];

// The first lane has room for 393 datagrams of 1332 bytes each. A drain takes 49 of them. Then one
// more datagram reaches the second lane alone.
const FULL_LANE: &[(u32, &[Step])] = &[
    (1, PLAY_BOTH),
    (394, GIVE_BOTH),
    (8, &[Make(Drain(1), TunnelAnswer::Frames(65268))]),
    (
        1,
        &[
            Make(Drain(1), TunnelAnswer::Frames(1332)),
            Make(Drain(1), TunnelAnswer::Broken),
        ],
    ),
    (1, GIVE_BOTH),
    (
        1,
        &[
            Make(Drain(1), TunnelAnswer::Broken),
            Make(Drain(2), TunnelAnswer::Empty),
        ],
    ),
];

#[test]
fn full_lane_breaks_alone(rt: HostRuntime) {
    run(&rt, rt.alloc(), "a full lane breaks alone", FULL_LANE);
}
