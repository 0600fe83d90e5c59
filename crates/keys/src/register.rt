//! The register: keys and their numbers, in the caller's memory.
ghost use Rattle.std.specs.Prelude.{◌≡◌, [], length, take};
ghost use Rattle.keys.specs.Registers.{slots_of, keys_in, Looked, Enters};
ghost use Rattle.keys.specs.Kept.{NumbersKept};

use crate::Key;
use crate::lookup::first_same;
use crate::numbers::{KeyCount, KeyNumber, NAMES, RegisterFault};

/// The keys that have a number lie in the first `used` of the caller's slots. The slots behind them are free.
// A slice with a count beside it: the caller lends the slots, and the crate allocates nothing.
#[derive(Drop)]
pub struct Register<'a, K> {
    slots: &'a mut [K],
    used: KeyCount,
}

impl<'a, K: Key + Copy> Register<'a, K> {
    /// A register over these slots, in which no key has a number.
    pub fn new(slots: &'a mut [K]) -> Self
        ensures keys { keys_in result ≡ [] }
        ensures slots { slots_of result ≡ length slots.old }
    {
        Register {
            slots,
            used: KeyCount::NONE,
        }
    }

    /// The keys that have a number, in the order of their numbers.
    fn keys(&self) -> &[K]
        ensures { result.now ≡ keys_in self.now }
    {
        // The lesser of count and slots, so that no ghost field has to tie the count to the lent slots.
        &self.slots[..self.used.count.min(self.slots.len())]
    }

    /// How many keys have a number.
    pub fn used(&self) -> usize
        ensures { result ≡ length (keys_in self.now) }
    {
        self.keys().len()
    }

    /// The number of a key, or nothing where it is absent.
    pub fn lookup(&self, key: &K) -> Option<KeyNumber>
        ensures { Looked K.same (keys_in self.now) key.now result }
    {
        let i = first_same(self.keys(), key)?;
        Some(KeyNumber { index: i as u8 })
    }

    /// The number of a key: its own if it has one, else the next. A refusal changes nothing.
    pub fn enter(&mut self, key: K, place: usize) -> Result<KeyNumber, RegisterFault>
        ensures result { Enters K.same (keys_in self.old) key (slots_of self.old) «place» (keys_in self.new) result }
        ensures slots { slots_of self.new ≡ slots_of self.old }
    {
        if let Some(number) = self.lookup(&key) {
            return Ok(number);
        }
        let used = self.used.count;
        let room = self.slots.len().min(NAMES);
        if used < room {
            // By index: of a slot that is written through `get_mut` nothing can be proved.
            self.slots[used] = key;
            self.used = KeyCount { count: used + 1 };
            Ok(KeyNumber { index: used as u8 })
        } else {
            Err(RegisterFault { place })
        }
    }

    /// Gives back the numbers from `count` on.
    pub fn truncate(&mut self, count: usize)
        ensures keys { keys_in self.new ≡ take count (keys_in self.old) }
        ensures slots { slots_of self.new ≡ slots_of self.old }
    {
        if count < self.used.count {
            self.used = KeyCount { count };
        }
    }
}

/// Keys get numbers in the order in which they appear, and keep them.
pub fn numbers_are_kept<K>()
    ensures { NumbersKept K }
{}
