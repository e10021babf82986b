//! The PIDs that a stream selects.

ghost use Rattle.std.specs.Prelude.{◌≡◌, ◌+◌, ◌*◌, ◌<◌, ◌≤◌, ◌↔◌, ◌||◌, ◌&&◌, not, ℕ, [], length, All, OnOk, OnErr, Ok, Err, MatchResult, if◌then◌else◌};
ghost use Rattle.std.specs.Int.{bit_at};
ghost use Rattle.satip_base.specs.Printed.{Printed};
ghost use Rattle.satip_pids.specs.Texts.{pids_text};
ghost use Rattle.satip_pids.specs.Rising.{has_number};
ghost use Rattle.satip_pids.specs.Pids.{Pids, Every, Only, IsPidSet, has_pid, listed, grown, set_pids, add_pids, remove_pids};

use crate::bits::{WORDS, add_bits, has_bit, remove_bits};
use crate::fault::PidFault;
use crate::texts::print_listed;
use satip_base::Strip;
use std::marker::Model;

/// The count of set bits if all PIDs are selected.
const EVERY: usize = 8192;

/// All PIDs, or a set of up to 256 of them, each below 8192. It has a bit for each PID and a count,
/// and allocates no memory.
#[derive(Debug, Drop)]
pub struct PidSet {
    words: [u64; WORDS],
    count: usize,
}

impl Model for PidSet {
    ghost use Rattle.satip_pids.specs.Pids.{Pids};
    ghost use Rattle.satip_pids.specs.Bits.{pids_of, IsBits};

    ghost Value = { Pids };

    ghost view = { λ s. pids_of s.words s.count };

    ghost invariant = { λ s. IsBits s.words s.count };
}

impl PidSet {
    /// Returns the empty set.
    pub fn new() -> Self
        ensures empty { result ≡ Only [] }
    {
        PidSet {
            words: [0; WORDS],
            count: 0,
        }
    }

    /// Returns a copy of the set.
    pub fn copy(&self) -> PidSet
        ensures same { result ≡ self.now }
    {
        PidSet {
            words: self.words,
            count: self.count,
        }
    }

    /// Selects the same PIDs as another set.
    pub fn copy_from(&mut self, other: &PidSet)
        ensures same { self.new ≡ other.now }
    {
        self.words = other.words;
        self.count = other.count;
    }

    /// Selects every PID.
    pub fn set_all(&mut self)
        ensures every { self.new ≡ Every }
    {
        self.words = [u64::MAX; WORDS];
        self.count = EVERY;
    }

    /// Selects the listed PIDs and no other. `TooMany` if they are more than 256 distinct ones.
    pub fn set(&mut self, list: &[u16]) -> Result<(), PidFault>
        requires below { All (λ pid. pid < 8192) list.now }
        ensures exact { MatchResult result (λ done. set_pids list.now ≡ Ok self.new)
            (λ fault. set_pids list.now ≡ Err fault) }
        ensures members { OnOk result ((pid : ℕ) → has_pid self.new pid ≡ has_number list.now pid) }
        ensures too_many { (result ≡ Err PidFault.TooMany)
            ↔ (256 < listed (grown (Only []) list.now)) }
        ensures limits { OnOk result (IsPidSet self.new) }
        ensures unchanged { OnErr result (self.new ≡ self.old) }
    {
        let mut words = [0; WORDS];
        let Some(count) = add_bits(&mut words, 0, list) else {
            return Err(PidFault::TooMany);
        };
        self.words = words;
        self.count = count;
        Ok(())
    }

    /// Adds the listed PIDs; the set of all stays as it is. `TooMany` if more than 256 distinct
    /// ones result.
    pub fn add(&mut self, list: &[u16]) -> Result<(), PidFault>
        requires below { All (λ pid. pid < 8192) list.now }
        ensures exact { MatchResult result (λ done. add_pids self.old list.now ≡ Ok self.new)
            (λ fault. add_pids self.old list.now ≡ Err fault) }
        ensures members { OnOk result ((pid : ℕ) →
            has_pid self.new pid ≡ (has_pid self.old pid || has_number list.now pid)) }
        ensures too_many { (result ≡ Err PidFault.TooMany)
            ↔ (256 < listed (grown self.old list.now)) }
        ensures limits { OnOk result (IsPidSet self.new) }
        ensures unchanged { OnErr result (self.new ≡ self.old) }
    {
        if self.count == EVERY {
            return Ok(());
        }
        let mut words = self.words;
        let Some(count) = add_bits(&mut words, self.count, list) else {
            return Err(PidFault::TooMany);
        };
        self.words = words;
        self.count = count;
        Ok(())
    }

    /// Removes the listed PIDs. `UnderAll` if the set selects all PIDs.
    pub fn remove(&mut self, list: &[u16]) -> Result<(), PidFault>
        requires below { All (λ pid. pid < 8192) list.now }
        ensures exact { MatchResult result (λ done. remove_pids self.old list.now ≡ Ok self.new)
            (λ fault. remove_pids self.old list.now ≡ Err fault) }
        ensures members { OnOk result ((pid : ℕ) →
            has_pid self.new pid ≡ (has_pid self.old pid && not (has_number list.now pid))) }
        ensures under_all { (result ≡ Err PidFault.UnderAll) ↔ (self.old ≡ Every) }
        ensures limits { OnOk result (IsPidSet self.new) }
        ensures unchanged { OnErr result (self.new ≡ self.old) }
    {
        if self.count == EVERY {
            return Err(PidFault::UnderAll);
        }
        self.count = remove_bits(&mut self.words, self.count, list);
        Ok(())
    }

    /// Returns whether the set selects a PID.
    pub fn has(&self, pid: u16) -> bool
        requires below { pid < 8192 }
        ensures selected { result ≡ has_pid self.now pid }
        ensures limits { IsPidSet self.now }
    {
        has_bit(&self.words, pid)
    }

    /// Returns 64 bits of the set: bit i is 1 if the PID `64 * place + i` is selected.
    pub fn word(&self, place: usize) -> u64
        requires within { place < 128 }
        ensures bits { (i : ℕ) → i < 64 → bit_at result i
            ≡ (if has_pid self.now (64 * place + i) then 1 else 0) }
    {
        self.words[place]
    }

    /// Prints `all`, `none` for the empty set, or the PIDs in rising order with commas between
    /// them.
    pub fn print(&self, strip: &mut Strip)
        requires room { length strip.old ≤ 320 }
        ensures printed { Printed strip.old (pids_text self.now) strip.new }
        ensures bound { length (pids_text self.now) ≤ 1279 }
        ensures limits { IsPidSet self.now }
    {
        if self.count == EVERY {
            strip.write(b"all");
            return;
        }
        print_listed(&self.words, strip);
    }
}
