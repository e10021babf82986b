//! Sends to clients that take their time.

use crate::checks::check;
use satip_real::{Unhurried, send_all};
use std::io;
use std::io::{ErrorKind, Write};

// A client that takes one byte after each `every` waits, which end early or not.
#[derive(Drop)]
struct SlowReader {
    every: u32,
    early: bool,
    waits: u32,
    rests: u32,
    taken: u8,
}

impl Write for SlowReader {
    fn write(&mut self, buf: &[u8]) -> io::Result<usize> {
        match buf.first() {
            Some(byte) if self.waits >= self.every && *byte == self.taken => {
                self.waits = 0;
                self.taken = self.taken.saturating_add(1);
                Ok(1)
            }
            _ => Err(io::Error::from(ErrorKind::WouldBlock)),
        }
    }

    fn flush(&mut self) -> io::Result<()> {
        Ok(())
    }
}

impl Unhurried for SlowReader {
    fn wait(&mut self) -> bool {
        self.waits = self.waits.saturating_add(1);
        self.early
    }

    fn rest(&mut self) {
        self.rests = self.rests.saturating_add(1);
    }
}

// 5 bytes, each after this number of waits, which end early or not; whether all are taken, the
// number of those that are, and the number of rests that follow waits that brought nothing.
const ROWS: &[(&str, u32, bool, bool, u8, u32)] = &[
    ("1 wait", 1, false, true, 5, 0),
    ("150 waits", 150, false, true, 5, 0),
    ("150 early waits", 150, true, true, 5, 745),
    ("200 waits", 200, false, true, 5, 0),
    ("201 waits", 201, false, false, 0, 0),
    ("201 early waits", 201, true, false, 0, 200),
];

#[test]
fn a_send_goes_on_while_its_client_takes_bytes(rt: HostRuntime) {
    for (name, every, early, whole, taken, rests) in ROWS {
        let mut reader = SlowReader {
            every: *every,
            early: *early,
            waits: 0,
            rests: 0,
            taken: 0,
        };
        let sent = send_all(&mut reader, &[0, 1, 2, 3, 4]).is_ok();
        let got = (sent, reader.taken, reader.rests);
        check(&rt, name, got, (*whole, *taken, *rests));
    }
}
