//! Sources and sinks over the standard streams and files. Their contracts don't say which bytes are
//! read or written.

ghost use Rattle.std.specs.Prelude.{◌≡◌, ◌≤◌, length, IfSome};

use crate::streams::{Put, Sink, Source, Taken};
use crate::tally::Tally;
use std::io::{ErrorKind, Read, Write};
use std::marker::Model;

// A call that a signal interrupts is tried at most this many times.
const TRIES: u32 = 1000;

/// A source over a reader: standard input, or a file.
#[derive(Drop)]
pub struct ReadSource<R: Read + Drop> {
    reader: R,
    ended: bool,
    faults: u64,
    tally: Tally,
}

impl<R: Read + Drop> Model for ReadSource<R> {
    ghost use Rattle.std.specs.Prelude.{[]};
    ghost use Rattle.satip_base.specs.Streams.{Feed};

    ghost Value = { Feed };

    ghost view = { λ s. record {
      left = [];
      ended = s.ended;
      faults = s.faults;
      taken = s.tally.bytes;
    } };
}

impl<R: Read + Drop> ReadSource<R> {
    ghost use Rattle.std.specs.Prelude.{[]};
    ghost use Rattle.satip_base.specs.Streams.{fresh_feed};

    /// Returns a source of the bytes that the reader has left.
    pub fn new(reader: R) -> ReadSource<R>
        ensures fresh { result ≡ fresh_feed [] }
    {
        ReadSource {
            reader,
            ended: false,
            faults: 0,
            tally: Tally::new(),
        }
    }
}

impl<R: Read + Drop> Source for ReadSource<R> {
    ghost use Rattle.std.specs.Prelude.{[]};

    ghost tells = { ⊥ };

    ghost feed = { λ s. record { left = []; ended = s.ended; faults = s.faults; taken = s.taken } };

    fn take(&mut self, buf: &mut [u8]) -> Taken {
        if self.ended {
            return Taken::End;
        }
        match read_some(&mut self.reader, buf) {
            Some(0) => {
                self.ended = true;
                Taken::End
            }
            Some(count) => {
                self.tally = Tally::with(&self.tally, &(count as u64));
                Taken::Got(count)
            }
            None => {
                self.faults = self.faults.saturating_add(1);
                Taken::Failed
            }
        }
    }
}

// Returns how many bytes were read, or `None` if the read failed.
fn read_some<R: Read>(reader: &mut R, buf: &mut [u8]) -> Option<usize>
    ensures within { IfSome result (λ count. count ≤ length buf.new) }
{
    for _ in 0..TRIES {
        match reader.read(buf) {
            Ok(count) => return Some(count),
            Err(error) => {
                if error.kind() != ErrorKind::Interrupted {
                    return None;
                }
            }
        }
    }
    None
}

/// A sink over a writer: standard output, or standard error.
#[derive(Drop)]
pub struct WriteSink<W: Write + Drop> {
    writer: W,
    faults: u64,
}

impl<W: Write + Drop> Model for WriteSink<W> {
    ghost use Rattle.std.specs.Prelude.{[]};
    ghost use Rattle.satip_base.specs.Streams.{Drain};

    ghost Value = { Drain };

    ghost view = { λ s. record { sent = []; faults = s.faults } };
}

impl<W: Write + Drop> WriteSink<W> {
    ghost use Rattle.satip_base.specs.Streams.{fresh_drain};

    /// Returns a sink that passes all bytes on to the writer and flushes it.
    pub fn new(writer: W) -> WriteSink<W>
        ensures fresh { result ≡ fresh_drain }
    {
        WriteSink { writer, faults: 0 }
    }
}

impl<W: Write + Drop> Sink for WriteSink<W> {
    ghost use Rattle.std.specs.Prelude.{[]};

    ghost tells = { ⊥ };

    ghost drain = { λ s. record { sent = []; faults = s.faults } };

    fn put(&mut self, bytes: &[u8]) -> Put {
        if self.writer.write_all(bytes).is_ok() && self.writer.flush().is_ok() {
            return Put::Whole;
        }
        self.faults = self.faults.saturating_add(1);
        Put::Failed
    }
}
