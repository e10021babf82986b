//! Ordered lists of numbers below 64.

ghost use Rattle.std.specs.Prelude.{◌≡◌, ◌<◌, ◌≤◌, ◌==◌, ℕ, [], ◌∷◌, ◌++◌, not, false, true, filter, length, slice_get, IfOk, IfSome};
ghost use Rattle.std.specs.List.{insert};
ghost use Rattle.satip_table.specs.Placed.{is_there};

use satip_base::Want;
use std::alloc::Global;
use std::marker::Model;

/// Up to 64 numbers below 64, in an order that the caller chooses. `has` takes constant time.
#[derive(Drop)]
pub struct Order {
    numbers: Vec<u16>,
    there: [bool; 64],
}

impl Model for Order {
    ghost use Rattle.std.specs.Prelude.{ℕ, List};

    ghost Value = { List ℕ };

    ghost view = { λ o. o.numbers.items };

    ghost use Rattle.satip_table.specs.Marked.{Marked};

    ghost invariant = { Marked };
}

impl Order {
    /// Returns an empty list. `Want` is out of memory.
    pub fn make(alloc: Global) -> Result<Order, Want>
        ensures empty { IfOk result (λ o. o ≡ []) }
    {
        let Ok(numbers) = Vec::with_capacity(alloc, 64) else {
            return Err(Want);
        };
        Ok(Order {
            numbers,
            there: [false; 64],
        })
    }

    /// Returns the numbers, in order.
    pub fn as_slice(&self) -> &[u16]
        ensures numbers { result.now ≡ self.now }
        ensures within { (number : ℕ) → is_there number self.now ≡ true → number < 64 }
    {
        self.numbers.as_slice()
    }

    /// Returns the number at this place, if there is one.
    pub fn get(&self, place: usize) -> Option<u16>
        ensures number { result ≡ slice_get self.now place }
    {
        self.numbers.get(place).copied()
    }

    /// Returns whether the list has the number.
    pub fn has(&self, number: u16) -> bool
        ensures there { result ≡ is_there number self.now }
    {
        number < 64 && self.there[number as usize]
    }

    /// Returns the least number that the list doesn't have.
    pub fn free(&self) -> u16
        requires room { length self.now < 64 }
        ensures within { result < 64 }
        ensures free { is_there result self.now ≡ false }
        ensures least { (other : ℕ) → other < result → is_there other self.now ≡ true }
    {
        let mut number = 0;
        while self.there[number as usize] {
            number += 1;
        }
        number
    }

    /// Appends a number.
    pub fn push(&mut self, number: u16)
        requires number { number < 64 }
        requires room { length self.old < 64 }
        ensures pushed { self.new ≡ self.old ++ number ∷ [] }
    {
        self.numbers.push_reserved(number);
        self.there[number as usize] = true;
    }

    /// Inserts a number at a place; those from there on move up by one.
    pub fn insert(&mut self, place: usize, number: u16)
        requires place { place ≤ length self.old }
        requires number { number < 64 }
        requires room { length self.old < 64 }
        ensures inserted { self.new ≡ insert self.old place number }
    {
        self.numbers.insert(place, number).unwrap();
        self.there[number as usize] = true;
    }

    /// Removes a number; those after it move down by one.
    pub fn remove(&mut self, number: u16)
        requires number { number < 64 }
        ensures removed { self.new ≡ filter (λ other. not (number == other)) self.old }
    {
        self.numbers.retain(|other| number != *other);
        self.there[number as usize] = false;
    }
}
