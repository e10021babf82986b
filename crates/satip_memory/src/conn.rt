//! A connection over memory.

ghost use Rattle.std.specs.Prelude.{◌≡◌, ◌++◌, IfOk, IsTrue, false};
ghost use Rattle.satip_base.specs.Streams.{Began};

use crate::failures::Failures;
use crate::streams::keep;
use satip_base::{Put, Want};
use satip_world::{Conn, Received};
use std::alloc::Global;
use std::marker::Model;

// The ends of a text's pieces, and the piece that is being received.
#[derive(Drop)]
struct Pieces {
    ends: Vec<usize>,
    next: usize,
}

impl Pieces {
    // Returns the end of the piece that is being received.
    fn end(&self) -> Option<usize> {
        self.ends.get(self.next).copied()
    }

    // Goes on to the next piece if the text was received up to the end of this one.
    fn pass(&mut self, place: usize) {
        if self.end().is_some_and(|end| end <= place) {
            self.next = self.next.saturating_add(1);
        }
    }
}

/// A connection that receives given pieces, and keeps the bytes sent on it. It is at its end once
/// the pieces are used up.
#[derive(Drop)]
pub struct MemoryConn {
    text: Vec<u8>,
    place: usize,
    pieces: Pieces,
    ended: bool,
    sent: Vec<u8>,
    passed: usize,
    receives: Failures,
    sends: Failures,
    idles: u64,
    receive_faults: u64,
    send_faults: u64,
}

impl Model for MemoryConn {
    ghost use Rattle.std.specs.Prelude.{◌≤◌, take, length};
    ghost use Rattle.satip_world.specs.Lines.{Line};

    ghost Value = { Line };

    ghost view = { λ c. record {
      received = take c.place c.text.items;
      sent = c.sent.items;
      ended = c.ended;
      idles = c.idles;
      receive_faults = c.receive_faults;
      send_faults = c.send_faults;
    } };

    ghost invariant = { λ c. c.place ≤ length c.text.items };
}

impl MemoryConn {
    ghost use Rattle.satip_world.specs.Lines.{fresh_line};

    /// Creates a connection that receives the pieces one after another; at an empty one a receive
    /// finds nothing. The receives and the sends with a number, from 1, in `failing_receives` and
    /// in `failing_sends` fail. A send that fails passes `passed` bytes at most.
    pub fn make(
        alloc: Global,
        pieces: &[&[u8]],
        failing_receives: &[u64],
        failing_sends: &[u64],
        passed: usize,
    ) -> Result<MemoryConn, Want>
        ensures ok { IfOk result (λ conn. conn ≡ fresh_line) }
    {
        let mut text = Vec::new(alloc);
        let mut ends = Vec::new(alloc);
        for piece in pieces {
            if text.extend_from_slice(piece).is_err() || ends.push(text.len()).is_err() {
                return Err(Want);
            }
        }
        Ok(MemoryConn {
            text,
            place: 0,
            pieces: Pieces { ends, next: 0 },
            ended: false,
            sent: Vec::new(alloc),
            passed,
            receives: Failures::make(alloc, failing_receives)?,
            sends: Failures::make(alloc, failing_sends)?,
            idles: 0,
            receive_faults: 0,
            send_faults: 0,
        })
    }

    /// Returns the bytes that were sent.
    pub fn sent(&self) -> &[u8]
        ensures sent { result.now ≡ self.now.sent }
    {
        &self.sent
    }
}

// Appends at most `passed` bytes, a prefix of `bytes`. Appends nothing if it is out of memory.
fn keep_front(sent: &mut Vec<u8>, bytes: &[u8], passed: usize)
    ensures began { Began sent.old.items sent.new.items bytes.now }
{
    let (front, _) = bytes.split_at(passed.min(bytes.len()));
    keep(sent, front);
}

impl Conn for MemoryConn {
    ghost tells = { Unit {0} };

    ghost line = { λ c. c };

    fn receive(&mut self, buf: &mut [u8]) -> Received {
        if self.ended {
            return Received::End;
        }
        if self.receives.meets_one() {
            self.receive_faults = self.receive_faults.saturating_add(1);
            return Received::Failed;
        }
        let Some(end) = self.pieces.end() else {
            self.ended = true;
            return Received::End;
        };
        let left = self.text.len() - self.place;
        let count = end.saturating_sub(self.place).min(left).min(buf.len());
        if count == 0 {
            self.pieces.pass(self.place);
            self.idles = self.idles.saturating_add(1);
            return Received::Idle;
        }
        buf[..count].copy_from_slice(&self.text[self.place..self.place + count]);
        self.place += count;
        self.pieces.pass(self.place);
        Received::Got(count)
    }

    fn send(&mut self, bytes: &[u8]) -> Put {
        if self.sends.meets_one() {
            keep_front(&mut self.sent, bytes, self.passed);
            self.send_faults = self.send_faults.saturating_add(1);
            return Put::Failed;
        }
        if keep(&mut self.sent, bytes) {
            return Put::Whole;
        }
        self.send_faults = self.send_faults.saturating_add(1);
        Put::Failed
    }
}
