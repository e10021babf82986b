//! A map from keys to deadlines, with the key of the least deadline.

ghost use Rattle.std.specs.Prelude.{◌≡◌, ◌<◌, ◌↔◌, ℕ, List, Option, Some, None, length, replicate, slice_set, IfOk, IfSome, IsNone};
ghost use Rattle.satip_timer.specs.Deadlines.{IsNextDue, NoneDue};

use crate::heap::Heap;
use satip_base::Want;
use std::alloc::Global;
use std::marker::Model;

/// The number of keys, which are 0 to 63.
pub const KEYS: u16 = 64;

/// Deadlines in milliseconds, at most one a key. In contracts it is the list of the keys'
/// deadlines, in the order of keys.
#[derive(Drop)]
pub struct Timer {
    dues: Vec<Option<u64>>,
    heap: Heap,
}

impl Model for Timer {
    ghost use Rattle.std.specs.Prelude.{ℕ, List, Option};

    ghost Value = { List (Option ℕ) };

    ghost view = { λ t. t.dues.items };

    ghost use Rattle.satip_timer.specs.Placed.{Sound};

    ghost invariant = { λ t. Sound t.dues.items t.heap };
}

impl Timer {
    /// Returns a timer without deadlines. It allocates the room of all deadlines; `Want` is out of
    /// memory.
    pub fn make(alloc: Global) -> Result<Timer, Want>
        ensures empty { IfOk result (λ t. t ≡ replicate KEYS None) }
    {
        let mut dues = Vec::new(alloc);
        match dues.resize(KEYS as usize, None) {
            Ok(()) => Ok(Timer {
                dues,
                heap: Heap::new(),
            }),
            Err(_) => Err(Want),
        }
    }

    /// Sets the deadline of the key, and replaces the one that it had.
    pub fn set(&mut self, key: u16, due: u64)
        requires key { key < KEYS }
        ensures replaced { self.new ≡ slice_set self.old key (Some due) }
        ensures keys { length self.new ≡ KEYS }
    {
        let before = self.dues[key as usize];
        self.dues[key as usize] = Some(due);
        if before.is_none() {
            self.heap.add(&self.dues, key);
        } else {
            self.heap.replace(&self.dues, key);
        }
    }

    /// Removes the key's deadline, if it has one.
    pub fn drop_key(&mut self, key: u16)
        requires key { key < KEYS }
        ensures dropped { self.new ≡ slice_set self.old key None }
        ensures keys { length self.new ≡ KEYS }
    {
        if self.dues[key as usize].is_some() {
            self.dues[key as usize] = None;
            self.heap.remove(&self.dues, key);
        }
    }

    /// Returns the key of the least deadline that is at most `now`, in milliseconds; of equal
    /// deadlines the least key.
    pub fn due(&self, now: u64) -> Option<u16>
        ensures none { IsNone result ↔ NoneDue now self.now }
        ensures next { IfSome result (IsNextDue now self.now) }
        ensures keys { length self.now ≡ KEYS }
    {
        let key = self.heap.first()?;
        let moment = self.dues[key as usize]?;
        if moment > now {
            return None;
        }
        Some(key)
    }
}
