//! Stress runs: counts of two runs, an output that fails, and the replay of a script with the texts
//! of the same events.

use crate::checks::check;
use crate::runs::{EMPTY, Ran, Row, run, run_by, run_rows};
use rand_chacha::ChaCha8Rng;
use rand_core::SeedableRng;
use rand_core::utils::NextWord;
use satip_memory::MemorySource;
use satip_memory_desk::MemoryDesk;
use std::alloc::Global;
use std::process::Abort;

const CONFIGURATION: &str = "address = \"10.0.0.1\"
[[frontend]]
sources = [1]
systems = [\"dvbs\", \"dvbs2\"]
[[mux]]
src = 1
freq = \"11361.75\"
pol = \"h\"
msys = \"dvbs2\"
sr = 22000
file = \"a.ts\"
";

const FIRST: &str = "10.0.0.2";

const SECOND: &str = "10.0.0.3";

const FIRST_SESSION: &str = "Session: 0000000100000001";

const SECOND_SESSION: &str = "Session: 0000000200000002";

const NO_DRAW: &str = "00000000000000000000";

const PLAY: &str = "PLAY rtsp://10.0.0.1/stream=1";

const FOUNDING: &str =
    "SETUP rtsp://10.0.0.1/?src=1&freq=11361.75&pol=h&msys=dvbs2&sr=22000&pids=0,16,100";

// A script of made events, the moment of its last tick and the number of its last request.
#[derive(Drop)]
struct Script {
    alloc: Global,
    text: String,
    moment: u64,
    cseq: u32,
}

impl Script {
    fn ticks(&mut self, rt: &impl Abort, moment: u64) {
        self.moment = moment;
        writeln!(self.text, "tick {moment}").expect(rt, "out of memory");
    }

    fn asks(&mut self, rt: &impl Abort, peer: &str, draw: &str, line: &str, header: &str) {
        self.cseq = self.cseq.saturating_add(1);
        let digits = message(rt, self.alloc, line, self.cseq, header);
        writeln!(self.text, "rtsp {peer} {draw} {digits}").expect(rt, "out of memory");
    }

    // A client founds the stream, another joins it, and both play.
    fn opens(&mut self, rt: &impl Abort) {
        self.ticks(rt, 1000);
        let transport = "Transport: RTP/AVP;unicast;client_port=1400-1401";
        self.asks(rt, FIRST, "00000001000000010000", FOUNDING, transport);
        self.asks(rt, FIRST, NO_DRAW, PLAY, FIRST_SESSION);
        let transport = "Transport: RTP/AVP;unicast;client_port=1500-1501";
        let join = "SETUP rtsp://10.0.0.1/stream=1";
        self.asks(rt, SECOND, "00000002000000020000", join, transport);
        self.asks(rt, SECOND, NO_DRAW, PLAY, SECOND_SESSION);
    }

    // A PLAY of the first client that changes one PID.
    fn changes(&mut self, rt: &impl Abort, key: &str, pid: u32) {
        let line = format!(in self.alloc; "{PLAY}?{key}={pid}").expect(rt, "out of memory");
        self.asks(rt, FIRST, NO_DRAW, &line, FIRST_SESSION);
    }

    // The event of a word.
    fn takes(&mut self, rt: &impl Abort, word: u32) {
        let pid = word / 64 % 128;
        match word % 64 {
            0 => self.ticks(rt, self.moment.saturating_add(40)),
            1 => self.asks(rt, FIRST, NO_DRAW, "OPTIONS *", FIRST_SESSION),
            2 => self.asks(rt, SECOND, NO_DRAW, "OPTIONS *", SECOND_SESSION),
            3 => self.changes(rt, "addpids", pid),
            4 => self.changes(rt, "delpids", pid),
            _ => self.gives(rt, pid),
        }
    }

    // A packet of this PID, with a payload of zeros.
    fn gives(&mut self, rt: &impl Abort, pid: u32) {
        let payload = hex::encode(self.alloc, &[0; 184]).expect(rt, "out of memory");
        writeln!(self.text, "packet 1 1 4700{pid:02x}10{payload}").expect(rt, "out of memory");
    }
}

// Returns a message in hexadecimal.
fn message(rt: &impl Abort, alloc: Global, line: &str, cseq: u32, header: &str) -> String {
    let text = format!(in alloc; "{line} RTSP/1.0\r\nCSeq: {cseq}\r\n{header}\r\n\r\n").expect(
        rt,
        "out of memory",
    );
    hex::encode(alloc, text.as_bytes()).expect(rt, "out of memory")
}

// Appends the events of this many words of the generator with a seed below 256.
fn take_words(rt: &impl Abort, script: &mut Script, seed: u8, count: u32) {
    let mut bytes = [0; 32];
    bytes[0] = seed;
    let mut words = ChaCha8Rng::from_seed(bytes);
    for _ in 0..count {
        script.takes(rt, words.next_word());
    }
}

// Returns the script of a seed below 256.
fn script_of(rt: &impl Abort, alloc: Global, seed: u8, count: u32) -> Script {
    let mut script = Script {
        alloc,
        text: String::new(alloc),
        moment: 0,
        cseq: 0,
    };
    script.opens(rt);
    take_words(rt, &mut script, seed, count);
    script
}

// What a printed run counts up to.
#[derive(Clone, Copy)]
struct Counts {
    events: u64,
    replies: u64,
    refused: u64,
    datagrams: u64,
    payload: u64,
    reports: u64,
}

impl Counts {
    fn new() -> Counts {
        Counts {
            events: 0,
            replies: 0,
            refused: 0,
            datagrams: 0,
            payload: 0,
            reports: 0,
        }
    }

    // Adds a line of the printed run.
    fn add(&mut self, rt: &impl Abort, line: &str) {
        match line.strip_prefix("datagram ") {
            Some(datagram) => {
                let (_, digits) = datagram.split_once(' ').expect(rt, "digits");
                self.add_datagram(digits);
            }
            None => self.add_answer(line),
        }
    }

    fn add_answer(&mut self, line: &str) {
        self.events = self.events.saturating_add(1);
        let Some(reply) = line.strip_prefix("reply ") else {
            return;
        };
        self.replies = self.replies.saturating_add(1);
        if !reply.starts_with("200 ") {
            self.refused = self.refused.saturating_add(1);
        }
    }

    // Adds a datagram of RTP or RTCP, by its digits.
    fn add_datagram(&mut self, digits: &str) {
        if digits.starts_with("8021") {
            let packets = (digits.len() / 2).saturating_sub(12) / 188;
            self.datagrams = self.datagrams.saturating_add(1);
            self.payload = self.payload.saturating_add(packets as u64);
        } else if digits.starts_with("80c8") {
            self.reports = self.reports.saturating_add(1);
        }
    }
}

fn count(rt: &impl Abort, printed: &[u8]) -> Counts {
    let mut counts = Counts::new();
    for line in str::from_utf8(printed).expect(rt, "text").lines() {
        counts.add(rt, line);
    }
    counts
}

fn push_count(rt: &impl Abort, text: &mut String, name: &str, count: u64) {
    writeln!(text, "{name} {count}").expect(rt, "out of memory");
}

// Returns the six lines of a printed run.
fn counted(rt: &impl Abort, alloc: Global, printed: &[u8]) -> String {
    let counts = count(rt, printed);
    let mut text = String::new(alloc);
    push_count(rt, &mut text, "events", counts.events);
    push_count(rt, &mut text, "replies", counts.replies);
    push_count(rt, &mut text, "refused", counts.refused);
    push_count(rt, &mut text, "datagrams", counts.datagrams);
    push_count(rt, &mut text, "payload", counts.payload);
    push_count(rt, &mut text, "reports", counts.reports);
    text
}

fn stressed(rt: &impl Abort, alloc: Global, seed: &str, count: &str) -> Ran {
    let input = MemorySource::make(alloc, b"stop\n", &[], &[]).expect(rt, "out of memory");
    let mut desk = MemoryDesk::make(alloc, 0);
    run(
        rt,
        alloc,
        &["stress", seed, count],
        input,
        &[],
        0,
        &mut desk,
    )
}

#[test]
fn the_same_words_have_the_same_counts(rt: HostRuntime) {
    let ran = stressed(&rt, rt.alloc(), "7", "1000");
    let again = stressed(&rt, rt.alloc(), "007", "01000");
    check(&rt, "counts", again.output(), ran.output());
}

#[test]
fn another_seed_has_other_counts(rt: HostRuntime) {
    let ran = stressed(&rt, rt.alloc(), "7", "1000");
    let other = stressed(&rt, rt.alloc(), "8", "1000");
    check(&rt, "the same", other.output() == ran.output(), false);
}

// Returns the counts of a replay of the script of a seed. Asserts that the replay ended well.
fn replayed(rt: &impl Abort, alloc: Global, seed: u8, count: u32) -> String {
    let script = script_of(rt, alloc, seed, count);
    let ran = run_by(rt, alloc, "replay", CONFIGURATION, script.text.as_bytes());
    check(rt, "status", ran.status, 0);
    counted(rt, alloc, ran.output())
}

#[test]
fn a_replay_of_the_texts_has_the_same_counts(rt: HostRuntime) {
    let counts = replayed(&rt, rt.alloc(), 200, 600);
    let ran = stressed(&rt, rt.alloc(), "200", "600");
    check(&rt, "counts", ran.output(), counts.as_bytes());
}

const FAILING_PUTS: &[Row] = &[Row {
    name: "the first put",
    words: &["stress", "7", "0"],
    input: &[(b"stop\n", 1)],
    put_faults: &[1],
    status: 6,
    errors: b"output fault\n",
    ..EMPTY
}];

#[test]
fn an_output_that_fails_has_a_beginning_of_the_counts(rt: HostRuntime) {
    run_rows(&rt, rt.alloc(), FAILING_PUTS);
}

#[test]
fn the_greatest_seed_is_known(rt: HostRuntime) {
    let ran = stressed(&rt, rt.alloc(), "18446744073709551615", "1");
    check(&rt, "status", ran.status, 0);
}
