//! Keys as a binary heap by their deadlines.

ghost use Rattle.std.specs.Prelude.{◌≡◌, ◌<◌, ◌≤◌, ◌+◌, ◌*◌, ℕ, List, Option, Some, None, length, replicate, slice_get, slice_index, slice_set, MatchBool, MatchOption};
ghost use Rattle.satip_timer.specs.Deadlines.{HasDeadline};
ghost use Rattle.satip_timer.specs.Heaps.{parent, IsFirstChild, IsHeapAround, IsHeapBut, IsHeapUnder};
ghost use Rattle.satip_timer.specs.Placed.{ranks, Moved, Paired, Placed, Sound};

/// The keys below 64 that have a deadline, as a heap: the key with the least deadline is at place
/// 0. The deadline of each other place isn't before that of its parent.
#[derive(Drop)]
pub struct Heap {
    pub keys: [u8; 64],
    pub places: [u8; 64],
    pub count: usize,
}

impl Heap {
    /// Returns the empty heap.
    pub fn new() -> Heap
        ensures sound { Sound (replicate 64 None) result }
    {
        let mut keys = [0; 64];
        for key in 0..64 {
            keys[key] = key as u8;
        }
        Heap {
            keys,
            places: keys,
            count: 0,
        }
    }

    /// Returns the key with the least deadline, if there is one.
    pub fn first(&self) -> Option<u16>
        ensures first { MatchOption result (self.now.count ≡ 0)
            (λ key. (0 < self.now.count) × (key ≡ slice_index self.now.keys 0)) }
    {
        if self.count == 0 {
            return None;
        }
        Some(u16::from(self.keys[0]))
    }

    /// Adds a key that got a deadline.
    pub fn add(&mut self, dues: &[Option<u64>], key: u16)
        requires due { (moment : ℕ) × HasDeadline dues.now key moment }
        requires before { Sound (slice_set dues.now key None) self.old }
        ensures sound { Sound dues.now self.new }
    {
        let at = self.places[key as usize] as usize;
        let end = self.count;
        self.swap(at, end);
        self.count = end + 1;
        self.rise(dues, end);
    }

    /// Moves a key whose deadline changed.
    pub fn replace(&mut self, dues: &[Option<u64>], key: u16)
        requires due { (moment : ℕ) × HasDeadline dues.now key moment }
        requires before { (moment : ℕ) × Sound (slice_set dues.now key (Some moment)) self.old }
        ensures sound { Sound dues.now self.new }
    {
        let at = self.places[key as usize] as usize;
        self.settle(dues, at);
    }

    /// Removes a key that has no deadline any more.
    pub fn remove(&mut self, dues: &[Option<u64>], key: u16)
        requires due { slice_get dues.now key ≡ Some None }
        requires before { (moment : ℕ) × Sound (slice_set dues.now key (Some moment)) self.old }
        ensures sound { Sound dues.now self.new }
    {
        let at = self.places[key as usize] as usize;
        let last = self.count - 1;
        self.swap(at, last);
        self.count = last;
        if at < last {
            self.settle(dues, at);
        }
    }

    /// Moves the key at this place up or down to its place.
    fn settle(&mut self, dues: &[Option<u64>], at: usize)
        requires within { at < self.old.count }
        requires placed { Placed dues.now self.old }
        requires heap { IsHeapAround (ranks dues.now self.old) self.old.count at }
        ensures sound { Sound dues.now self.new }
    {
        if self.rises(dues, at) {
            self.rise(dues, at);
        } else {
            self.sink(dues, at);
        }
    }

    /// Moves the key at this place up while it is before its parent.
    fn rise(&mut self, dues: &[Option<u64>], from: usize)
        requires within { from < self.old.count }
        requires placed { Placed dues.now self.old }
        requires heap { IsHeapBut (ranks dues.now self.old) self.old.count from }
        ensures sound { Sound dues.now self.new }
    {
        let mut at = from;
        while self.rises(dues, at) {
            let parent = (at - 1) / 2;
            self.swap(at, parent);
            at = parent;
        }
    }

    /// Moves the key at this place down while a child is before it.
    fn sink(&mut self, dues: &[Option<u64>], from: usize)
        requires within { from < self.old.count }
        requires placed { Placed dues.now self.old }
        requires heap { IsHeapUnder (ranks dues.now self.old) self.old.count from }
        ensures sound { Sound dues.now self.new }
    {
        let mut at = from;
        while let Some(child) = self.first_child(dues, at) {
            if !self.is_before(dues, child, at) {
                return;
            }
            self.swap(at, child);
            at = child;
        }
    }

    /// Returns whether the key at this place is before its parent.
    fn rises(&self, dues: &[Option<u64>], at: usize) -> bool
        requires within { at < self.now.count }
        requires placed { Placed dues.now self.now }
        ensures rises { MatchBool result
            ((0 < at) × (ranks dues.now self.now at < ranks dues.now self.now (parent at)))
            (0 < at → ranks dues.now self.now (parent at) ≤ ranks dues.now self.now at) }
    {
        if at == 0 {
            return false;
        }
        self.is_before(dues, at, (at - 1) / 2)
    }

    /// Returns the child of this place that is before the other, if it has any.
    fn first_child(&self, dues: &[Option<u64>], at: usize) -> Option<usize>
        requires within { at < self.now.count }
        requires placed { Placed dues.now self.now }
        ensures child { MatchOption result (self.now.count ≤ 2 * at + 1)
            (IsFirstChild (ranks dues.now self.now) self.now.count at) }
    {
        let left = 2 * at + 1;
        if left >= self.count {
            return None;
        }
        let right = left + 1;
        if right >= self.count {
            return Some(left);
        }
        if self.is_before(dues, right, left) {
            Some(right)
        } else {
            Some(left)
        }
    }

    /// Returns whether the key at the first place is before that at the second. It is if its
    /// deadline is less, or if the deadlines are equal and it is the lesser key.
    fn is_before(&self, dues: &[Option<u64>], first: usize, second: usize) -> bool
        requires first { first < self.now.count }
        requires second { second < self.now.count }
        requires placed { Placed dues.now self.now }
        ensures before { MatchBool result
            (ranks dues.now self.now first < ranks dues.now self.now second)
            (ranks dues.now self.now second ≤ ranks dues.now self.now first) }
    {
        let key = self.keys[first];
        let other = self.keys[second];
        let moment = dues[key as usize].unwrap_or(0);
        let later = dues[other as usize].unwrap_or(0);
        if moment == later {
            return key < other;
        }
        moment < later
    }

    /// Exchanges the keys at two places.
    fn swap(&mut self, first: usize, second: usize)
        requires first { first < 64 }
        requires second { second < 64 }
        requires pairs { Paired (slice_index self.old.keys) (slice_index self.old.places) }
        ensures moved { Moved self.old self.new first second }
        ensures count { self.new.count ≡ self.old.count }
    {
        let key = self.keys[first];
        let other = self.keys[second];
        self.put(first, other);
        self.put(second, key);
    }

    /// Writes a key to a place.
    fn put(&mut self, at: usize, key: u8)
        requires place { at < 64 }
        requires key { key < 64 }
        ensures keys { self.new.keys ≡ slice_set self.old.keys at key }
        ensures places { self.new.places ≡ slice_set self.old.places key at }
        ensures count { self.new.count ≡ self.old.count }
    {
        self.keys[at] = key;
        self.places[key as usize] = at as u8;
    }
}
