//! The clock of a recording.

ghost use Rattle.std.specs.Prelude.{◌≡◌, ◌≤◌, ◌↔◌, IsNone, None, Some};
ghost use Rattle.satip_ts.specs.Packet.{pid_of};

use crate::references::{SECOND, breaks, reference_of, ticks_between};

// Returns the packet identifier (PID): 13 bits.
fn pid(packet: &[u8; 188]) -> u16
    ensures pid { result ≡ pid_of packet.now }
{
    u16::from(packet[1] & 0x1f) << 8 | u16::from(packet[2])
}

// The ticks by which the clock advanced, and the count of packets over which it did.
#[derive(Clone, Copy)]
struct Step {
    ticks: u64,
    packets: u64,
}

/// The clock of a recording, by the references of the first PID that carries one. It reads one
/// packet after another. Between two references it advances as fast as between the last two.
#[derive(Drop)]
pub struct RecordingClock {
    pid: Option<u16>,
    last: Option<u64>,
    // ticks from the last break to the last reference
    passed: u64,
    // packets from the last reference, or a later break, on
    packets: u64,
    step: Option<Step>,
}

impl RecordingClock {
    /// Creates the clock of a recording of which nothing was read.
    pub fn new() -> RecordingClock {
        RecordingClock {
            pid: None,
            last: None,
            passed: 0,
            packets: 0,
            step: None,
        }
    }

    /// Reads the bytes of a packet. Returns whether the clock has a break there: the packet's flags
    /// say so, or its reference isn't within the second after the one before.
    pub fn read(&mut self, packet: &[u8; 188]) -> bool {
        self.packets = self.packets.saturating_add(1);
        let reference = reference_of(packet);
        if !self.is_carrier(pid(packet), reference.is_some()) {
            return false;
        }
        let broken = breaks(packet) || !self.step_to(reference);
        if broken {
            self.break_off();
        }
        if reference.is_some() {
            self.last = reference;
        }
        broken
    }

    // Returns whether references of this PID count. Keeps the first PID that carries one.
    fn is_carrier(&mut self, pid: u16, carries: bool) -> bool
        ensures kept { (kept : _) → self.old.pid ≡ Some kept → self.new ≡ self.old }
        ensures last { self.new.last ≡ self.old.last }
    {
        if self.pid.is_none() && carries {
            self.pid = Some(pid);
        }
        self.pid == Some(pid)
    }

    // Advances to a reference, if there is one. Returns false if it isn't within the second after
    // the one before.
    fn step_to(&mut self, reference: Option<u64>) -> bool {
        let Some(reference) = reference else {
            return true;
        };
        let Some(last) = self.last else {
            self.passed = self.passed.saturating_add(self.ahead());
            self.packets = 0;
            return true;
        };
        let ticks = ticks_between(last, reference);
        if ticks > SECOND {
            return false;
        }
        self.step = Some(Step {
            ticks,
            packets: self.packets,
        });
        self.passed = self.passed.saturating_add(ticks);
        self.packets = 0;
        true
    }

    // Returns how many ticks the clock is ahead of the last reference, at most a second; 0 before
    // two references without a break between them were read.
    fn ahead(&self) -> u64
        ensures most { result ≤ 27000000 }
    {
        let Some(step) = self.step else {
            return 0;
        };
        let ticks = step
            .ticks
            .saturating_mul(self.packets)
            .checked_div(step.packets);
        ticks.unwrap_or(0).min(SECOND)
    }

    /// Starts the clock at 0 again; it advances as fast as before.
    pub(crate) fn break_off(&mut self)
        ensures last { self.new.last ≡ None }
        ensures passed { self.new.passed ≡ 0 }
        ensures packets { self.new.packets ≡ 0 }
        ensures step { self.new.step ≡ self.old.step }
        ensures pid { self.new.pid ≡ self.old.pid }
    {
        self.last = None;
        self.passed = 0;
        self.packets = 0;
    }

    /// Returns the microseconds since the last break; `None` before two references without a break
    /// between them were read. It advances for at most a second after a reference.
    pub fn micros(&self) -> Option<u64>
        ensures none { IsNone result ↔ IsNone self.now.step }
    {
        if self.step.is_none() {
            return None;
        }
        Some(self.passed.saturating_add(self.ahead()) / 27)
    }
}
