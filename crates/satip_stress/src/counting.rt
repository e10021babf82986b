//! The six counts of a run.

ghost use Rattle.std.specs.Prelude.{◌≡◌, ◌+◌, ◌<◌, ◌≤◌, [], ◌∷◌, length, slice_get, slice_index, IsSomeAnd};
ghost use Rattle.satip_base.specs.Printed.{Printed};
ghost use Rattle.satip_base.specs.declared.network.Address.{Address};
ghost use Rattle.satip_stress.specs.Counting.{line, lines};
ghost use Rattle.satip_stress.specs.Counted.{none_counted, with_datagrams, with_answer, with_entry, IsBounded, HasRoom, HasDatagramRoom};

use satip_base::limits::{PACKET, RTP_HEAD};
use satip_base::{Out, Strip};
use satip_plain::Answer;

// The second byte of an RTP datagram that has a transport stream (RFC 2250, 2), and of a sender
// report (RFC 3550, 6.4.1).
const MEDIA: u8 = 33;

const SENDER_REPORT: u8 = 200;

/// The counts of a run: events, RTSP replies, those whose status isn't 200, RTP datagrams,
/// transport packets in them, and RTCP datagrams.
#[derive(Clone, Copy, Debug, PartialEq, Eq)]
pub(crate) struct Counts {
    pub(crate) events: u64,
    pub(crate) replies: u64,
    pub(crate) refused: u64,
    pub(crate) datagrams: u64,
    pub(crate) payload: u64,
    pub(crate) reports: u64,
}

impl Counts {
    /// Returns the counts before any event.
    pub(crate) fn none() -> Counts
        ensures none { result ≡ none_counted }
    {
        Counts {
            events: 0,
            replies: 0,
            refused: 0,
            datagrams: 0,
            payload: 0,
            reports: 0,
        }
    }

    /// Counts an event by its answer and its datagrams.
    pub(crate) fn add(&mut self, answer: Answer, out: &Out)
        requires room { HasRoom self.old }
        ensures counted { self.new ≡ with_entry self.old answer out.now.datagrams }
        ensures events { self.new.events ≡ self.old.events + 1 }
        ensures bounded { IsBounded self.new }
    {
        self.add_answer(answer);
        for place in 0..out.count() {
            self.add_datagram_at(out, place);
        }
    }

    fn add_answer(&mut self, answer: Answer)
        requires room { HasRoom self.old }
        ensures counted { self.new ≡ with_answer self.old answer }
    {
        self.events += 1;
        match answer {
            Answer::Replied(replied) => {
                self.replies += 1;
                if replied.status != 200 {
                    self.refused += 1;
                }
            }
            Answer::Get(_) => {}
            Answer::Beat(_) => {}
            Answer::Work(_) => {}
            Answer::Pulled(_) => {}
            Answer::Closed(_) => {}
        }
    }

    fn add_datagram_at(&mut self, out: &Out, place: usize)
        requires within { place < length out.now.datagrams }
        requires room { HasDatagramRoom self.old }
        ensures counted { IsSomeAnd (slice_get out.now.datagrams place)
            (λ datagram. self.new ≡ with_datagrams self.old (datagram ∷ [])) }
    {
        match out.datagram(place) {
            Some((_, bytes)) => self.add_datagram(bytes),
            None => unreachable!(),
        }
    }

    fn add_datagram(&mut self, bytes: &[u8])
        requires room { HasDatagramRoom self.old }
        ensures counted { (to : Address) → self.new
            ≡ with_datagrams self.old (record { to = to; bytes = bytes.now } ∷ []) }
    {
        match second_byte(bytes) {
            MEDIA => {
                self.datagrams += 1;
                self.payload += (bytes.len().saturating_sub(RTP_HEAD) / PACKET) as u64;
            }
            SENDER_REPORT => self.reports += 1,
            _ => {}
        }
    }

    /// Appends the six lines.
    pub(crate) fn print(&self, strip: &mut Strip)
        requires empty { strip.old ≡ [] }
        ensures printed { strip.new ≡ lines self.now }
    {
        print_line(strip, b"events", self.events);
        print_line(strip, b"replies", self.replies);
        print_line(strip, b"refused", self.refused);
        print_line(strip, b"datagrams", self.datagrams);
        print_line(strip, b"payload", self.payload);
        print_line(strip, b"reports", self.reports);
    }
}

fn second_byte(bytes: &[u8]) -> u8
    ensures second { result ≡ slice_index bytes.now 1 }
{
    if bytes.len() < 2 {
        return 0;
    }
    bytes[1]
}

// Appends a line: a name and its number.
#[tactic(auto, using(satip_base::proofs::NumberLemmas::digit_bounds))]
fn print_line(strip: &mut Strip, name: &[u8], number: u64)
    requires room { length strip.old + length name.now + 22 ≤ 1600 }
    ensures printed { Printed strip.old (line name.now number) strip.new }
    ensures short { length strip.new ≤ length strip.old + length name.now + 22 }
{
    strip.write(name);
    strip.write(b" ");
    strip.write_number(number);
    strip.write(b"\n");
}
