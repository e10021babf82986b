//! When a client is given up, and how long it is waited for.

ghost use Rattle.std.specs.Prelude.{◌≡◌, ◌+◌, ◌-◌, ◌<◌, ◌≤◌, false, min, IsTrue};

use crate::listeners::{Carried, Listeners};
use satip_host::Stopwatch;
use satip_world::DoorKind;
use std::sync::Arc;

// How long a client that sent nothing yet is waited for while others wait, in milliseconds.
const FIRST_BYTE_MS: u64 = 2000;

// How long a client whose bytes have no answer is waited for while others wait, in milliseconds.
const ANSWER_MS: u64 = 10_000;

// The same for a client of a crowd that was never sent anything, in milliseconds.
const CROWD_MS: u64 = 500;

// The longest wait for a client to whom nothing goes but what it asks for, in milliseconds.
const QUIET_WAIT_MS: u64 = 1000;

// The longest wait for a client that reads a stream, in milliseconds.
const STREAM_WAIT_MS: u64 = 50;

// The longest wait for a client with a lane while no frames are sent, in milliseconds: a lane whose
// session starts to play isn't filled within it.
const LANE_WAIT_MS: u64 = 35;

// The longest of the waits after many frames, or after a request, which may be PLAY, in milliseconds.
// It is that of an HTTP client after its request too.
const SHORT_WAIT_MS: u64 = 10;

// The count of these waits of a client with a lane. A fast stream pauses at a break of its clock, and begins slowly.
const SHORT_WAITS: u32 = 4;

// The counts of bytes sent between two waits from which frames are among them, and many.
const FRAMES: usize = 8192;

const MANY_FRAMES: usize = 131_072;

// The count of waits in a row without many frames, after which a stream is a slow one.
const SLOW: u32 = 32;

/// The time for which a client neither sent nor was sent anything, and its limit.
#[derive(Drop)]
pub(crate) struct Silence {
    kind: DoorKind,
    limit_ms: u64,
    watch: Stopwatch,
    listeners: Arc<Listeners>,
    was_heard: bool,
    was_answered: bool,
    // Whether bytes were received of which no arrival is counted yet.
    is_new: bool,
    // The time since the first byte that has no answer, if there is one.
    asked: Stopwatch,
    is_asked: bool,
    // The count of bytes sent since the last wait, that of waits since one with many, and that of the
    // next waits that are to be short.
    sent: usize,
    calm: u32,
    short: u32,
}

impl Silence {
    /// Starts the silence of a client that just came. Its limit is `timeout_s` seconds.
    pub(crate) fn begin(
        rt: HostRuntime,
        kind: DoorKind,
        timeout_s: u32,
        listeners: Arc<Listeners>,
    ) -> Silence {
        Silence {
            kind,
            limit_ms: timeout_s as u64 * 1000,
            watch: Stopwatch::start(rt),
            listeners,
            was_heard: false,
            was_answered: false,
            is_new: false,
            asked: Stopwatch::start(rt),
            is_asked: false,
            sent: 0,
            calm: 0,
            short: 0,
        }
    }

    /// Notes that bytes were received.
    pub(crate) fn hear(&mut self) {
        self.was_heard = true;
        self.is_new = true;
        self.watch.restart();
        if !self.is_asked {
            self.is_asked = true;
            self.asked.restart();
        }
    }

    /// Notes that this number of bytes is sent.
    pub(crate) fn answer(&mut self, count: usize) {
        self.was_answered = true;
        self.is_asked = false;
        self.sent = self.sent.saturating_add(count);
        self.watch.restart();
    }

    /// Counts an arrival if bytes were received: the events made of them are to be seen.
    pub(crate) fn show_events(&self) {
        if self.is_new {
            self.listeners.arrivals.add_piece();
        }
    }

    /// Counts an arrival if bytes were received since the last call: all events of them are made.
    pub(crate) fn end_piece(&mut self) {
        self.show_events();
        self.is_new = false;
    }

    // Returns whether the client reads a stream over HTTP, and so has nothing to send.
    fn reads_stream(&self) -> bool {
        self.kind == DoorKind::Http && self.was_answered
    }

    /// Returns whether the connection has to end, since the server was asked to.
    pub(crate) fn has_to_end(&self) -> bool {
        self.listeners.is_over()
    }

    /// Returns a wait of this length, or a shorter one if the server may be asked to end.
    pub(crate) fn cut_ms(&self, wait_ms: u64) -> u64 {
        self.listeners.wait_ms(wait_ms)
    }

    /// Returns the length of the next wait in milliseconds. It ends when the client may have to be
    /// given up. What was received before counts as an arrival.
    pub(crate) fn next_wait_ms(&mut self) -> u64 {
        let (asked, sent) = (self.is_new, self.sent);
        self.end_piece();
        self.sent = 0;
        self.calm = calm_waits(self.calm, sent);
        self.short = short_waits(self.short, asked, sent);
        if self.reads_stream() {
            return stream_wait_ms(asked);
        }
        let longest_ms = match (self.kind, self.listeners.carried) {
            (DoorKind::Rtsp, Carried::Frames) => lane_wait_ms(self.short, sent, self.calm),
            _ => QUIET_WAIT_MS,
        };
        longest_ms.min(self.left_ms())
    }

    // Returns the milliseconds until the client may have to be given up.
    fn left_ms(&self) -> u64 {
        let silent_ms = self.watch.elapsed_ms();
        let mut left_ms = left_until(self.limit_ms, silent_ms);
        if !self.was_heard {
            left_ms = left_ms.min(left_until(FIRST_BYTE_MS, silent_ms));
        }
        if self.is_asked {
            left_ms = left_ms.min(left_until(self.answer_ms(), self.asked.elapsed_ms()));
        }
        left_ms
    }

    // Returns how long the client's bytes may have no answer while others wait. After one such client
    // was given up, the next ones have less.
    fn answer_ms(&self) -> u64 {
        if !self.was_answered && self.listeners.is_crowded() {
            return CROWD_MS;
        }
        ANSWER_MS
    }

    /// Returns whether the client is given up. It was silent for longer than its limit. Or others
    /// wait at the doors, and it sent nothing in 2 s, or nothing was sent to it for 10 s after it
    /// sent bytes; for 0.5 s if it was never sent anything, and there is a crowd of such clients. A
    /// client that reads a stream over HTTP has nothing to send.
    pub(crate) fn is_over(&self) -> bool {
        if self.reads_stream() {
            return false;
        }
        let silent_ms = self.watch.elapsed_ms();
        if silent_ms > self.limit_ms {
            return true;
        }
        if !self.was_heard {
            return silent_ms > FIRST_BYTE_MS && self.listeners.somebody_waits();
        }
        let is_late = self.is_asked && self.asked.elapsed_ms() > self.answer_ms();
        if !is_late || !self.listeners.somebody_waits() {
            return false;
        }
        self.listeners.note_crowd();
        true
    }
}

// Returns the count of waits in a row without many frames, after one that follows `sent` bytes.
fn calm_waits(calm: u32, sent: usize) -> u32
    ensures many { 131072 < sent → result ≡ 0 }
    ensures few { sent ≤ 131072 → result ≡ min 4294967295 (calm + 1) }
{
    if sent > MANY_FRAMES {
        return 0;
    }
    calm.saturating_add(1)
}

// Returns the longest wait for a client that reads a stream over HTTP, after bytes were received or
// not.
fn stream_wait_ms(asked: bool) -> u64
    ensures asked { IsTrue asked → result ≡ 10 }
    ensures more { asked ≡ false → result ≡ 50 }
{
    match asked {
        true => SHORT_WAIT_MS,
        false => STREAM_WAIT_MS,
    }
}

// Returns the count of short waits from now on, after `sent` bytes were sent, and bytes were received
// or not.
fn short_waits(short: u32, asked: bool, sent: usize) -> u32
    ensures asked { IsTrue asked → result ≡ 4 }
    ensures many { 131072 < sent → result ≡ 4 }
    ensures fewer { asked ≡ false → sent ≤ 131072 → result ≡ short - 1 }
{
    if asked || sent > MANY_FRAMES {
        return SHORT_WAITS;
    }
    short.saturating_sub(1)
}

// Returns the longest wait for a client with a lane, the next of `short` short waits if there are
// some, after this number of bytes was sent, and this number of waits in a row was without many.
fn lane_wait_ms(short: u32, sent: usize, calm: u32) -> u64
    ensures most { result ≤ 50 }
    ensures short { 1 ≤ short → result ≡ 10 }
{
    if short > 0 {
        return SHORT_WAIT_MS;
    }
    if calm > SLOW && sent > FRAMES {
        return STREAM_WAIT_MS;
    }
    LANE_WAIT_MS
}

// Returns the milliseconds until more than `limit_ms` have passed; 50 if they have.
fn left_until(limit_ms: u64, passed_ms: u64) -> u64
    ensures before { passed_ms ≤ limit_ms → result ≡ min 18446744073709551615 (limit_ms - passed_ms + 1) }
    ensures after { limit_ms < passed_ms → result ≡ 50 }
{
    if passed_ms > limit_ms {
        return STREAM_WAIT_MS;
    }
    (limit_ms - passed_ms).saturating_add(1)
}
