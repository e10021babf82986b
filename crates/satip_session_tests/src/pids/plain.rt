//! A set as a list that rises strictly, which the bits are compared with.

ghost use Rattle.std.specs.Prelude.{◌≡◌, ◌<◌, ◌≤◌, ◌+◌, ◌*◌, length, All};
ghost use Rattle.std.specs.List.{flat_map};
ghost use Rattle.satip_base.specs.Printed.{Printed};
ghost use Rattle.satip_pids.specs.Texts.{listed_text, next_text};

use super::rising::{difference, place_of, union};
use arrayvec::ArrayVec;
use satip_base::Strip;
use satip_pids::PidFault;
use std::marker::Model;

/// All PIDs, or those of a list.
#[derive(Drop)]
pub struct PlainSet {
    all: bool,
    pids: ArrayVec<u16, 256>,
}

impl Model for PlainSet {
    ghost use Rattle.std.specs.Prelude.{ℕ, List};
    ghost use Rattle.satip_pids.specs.Pids.{IsPidRow};

    ghost Value = { List ℕ };

    ghost view = { λ s. s.pids.items };

    ghost invariant = { λ s. IsPidRow s.pids.items };
}

impl PlainSet {
    pub fn new() -> Self {
        PlainSet {
            all: false,
            pids: ArrayVec::new(),
        }
    }

    pub fn set_all(&mut self) {
        self.all = true;
    }

    pub fn set(&mut self, list: &[u16]) -> Result<(), PidFault>
        requires below { All (λ pid. pid < 8192) list.now }
    {
        let pids = union(&[], list)?;
        self.pids = pids;
        self.all = false;
        Ok(())
    }

    pub fn add(&mut self, list: &[u16]) -> Result<(), PidFault>
        requires below { All (λ pid. pid < 8192) list.now }
    {
        if self.all {
            return Ok(());
        }
        let pids = union(self.pids.as_slice(), list)?;
        self.pids = pids;
        Ok(())
    }

    pub fn remove(&mut self, list: &[u16]) -> Result<(), PidFault> {
        if self.all {
            return Err(PidFault::UnderAll);
        }
        self.pids = difference(self.pids.as_slice(), list);
        Ok(())
    }

    pub fn has(&self, pid: u16) -> bool {
        self.all || place_of(self.pids.as_slice(), pid).is_ok()
    }

    pub fn print(&self, strip: &mut Strip)
        requires room { length strip.old ≤ 320 }
    {
        if self.all {
            strip.write(b"all");
            return;
        }
        print_numbers(self.pids.as_slice(), strip);
    }
}

// Prints PIDs with commas between them, or `none`.
#[tactic(auto, using(satip_base::proofs::NumberLemmas::digit_bounds))]
fn print_numbers(pids: &[u16], strip: &mut Strip)
    requires few { length pids.now ≤ 256 }
    requires below { All (λ pid. pid < 8192) pids.now }
    requires room { length strip.old ≤ 320 }
    ensures printed { Printed strip.old (listed_text pids.now) strip.new }
{
    if pids.is_empty() {
        strip.write(b"none");
        return;
    }
    strip.write_number(pids[0] as u64);
    print_others(pids.split_at(1).1, strip);
}

// Prints PIDs with a comma before each.
#[tactic(auto, using(satip_pids::proofs::PidTexts::steps))]
fn print_others(pids: &[u16], strip: &mut Strip)
    requires below { All (λ pid. pid < 8192) pids.now }
    requires room { length strip.old + 5 * length pids.now ≤ 1600 }
    ensures printed { Printed strip.old (flat_map next_text pids.now) strip.new }
{
    for pid in pids {
        strip.write(b",");
        strip.write_number(*pid as u64);
    }
}
