//! PIDs in the order of a request.

ghost use Rattle.std.specs.Prelude.{◌≡◌, ◌<◌, ◌≤◌, ◌^◌, ◌↔◌, ℕ, List, [], ◌∷◌, ◌++◌, length, All, IsTrue};
ghost use Rattle.std.specs.Bool.{MatchBool};
ghost use Rattle.satip_pids.specs.Pids.{IsPidList};

use crate::numbers::Numbers;
use std::marker::Model;

/// A list of up to 512 PIDs, each below 8192, in the order in which they were pushed. A PID has 13
/// bits (ISO 13818-1, 2.4.3.2).
#[derive(Clone, Copy, Debug, PartialEq, Eq)]
pub struct PidList {
    numbers: Numbers<512>,
}

impl Model for PidList {
    ghost use Rattle.std.specs.Prelude.{ℕ, List};
    ghost use Rattle.satip_pids.specs.Pids.{IsPidList};

    ghost Value = { List ℕ };

    ghost view = { λ s. s.numbers };

    ghost invariant = { λ s. IsPidList s.numbers };

    ghost inverse = { λ xs. record { numbers = xs } };
}

impl PidList {
    /// Returns the empty list.
    pub fn new() -> Self
        ensures empty { result ≡ [] }
    {
        PidList {
            numbers: Numbers::new(),
        }
    }

    /// Appends a PID; returns `false` and changes nothing if 512 are there already.
    pub fn push(&mut self, pid: u16) -> bool
        requires below { pid < 8192 }
        ensures full { MatchBool result (length self.old < 512) (length self.old ≡ 512) }
        ensures pushed { MatchBool result (self.new ≡ self.old ++ pid ∷ []) (self.new ≡ self.old) }
    {
        if self.numbers.is_full() {
            return false;
        }
        self.numbers.push(pid);
        true
    }

    /// Returns the PIDs, in the order in which they were pushed.
    pub fn as_slice(&self) -> &[u16]
        ensures pids { result.now ≡ self.now }
        ensures limits { IsPidList result.now }
    {
        self.numbers.as_slice()
    }
}
