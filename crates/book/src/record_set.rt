//! Sets of records.
ghost use Rattle.std.specs.Prelude.{◌≡◌, ℕ, ◌%◌, ◌^◌, ◌<◌, ◌↔◌, Decides, bit_or};
ghost use Rattle.logic.specs.Sets.{Has};
ghost use Rattle.book.specs.Sets.{Least, LeastFound};

use crate::number::{RECORDS, RecordNumber};

/// A set of records: record `r` is in it where bit `r` is set.
#[derive(Clone, Copy, PartialEq, Debug)]
pub struct RecordSet {
    pub bits: u128,
}

impl RecordSet {
    /// No records.
    pub const EMPTY: RecordSet = RecordSet { bits: 0 };

    /// Tells whether the record is in the set.
    pub fn contains(self, number: RecordNumber) -> bool
        ensures { Decides result (Has self.bits number.index) }
    {
        (self.bits >> number.index) & 1 == 1
    }

    /// The set with one more record.
    pub fn insert(self, number: RecordNumber) -> RecordSet
        ensures { result.bits ≡ bit_or self.bits (2 ^ number.index) }
    {
        RecordSet {
            bits: self.bits | (1 << number.index),
        }
    }

    /// The records of either set.
    // A name, since it says more than `|`.
    pub fn union(self, other: RecordSet) -> RecordSet
        ensures { result.bits ≡ bit_or self.bits other.bits }
    {
        RecordSet {
            bits: self.bits | other.bits,
        }
    }

    /// The records of both sets.
    // A name, since it says more than `&`.
    pub fn common(self, other: RecordSet) -> RecordSet
        ensures { (k : ℕ) → Has result.bits k ↔ (Has self.bits k × Has other.bits k) }
    {
        RecordSet {
            bits: self.bits & other.bits,
        }
    }

    /// Tells whether the sets have the same records.
    // The derived `==`, with the promise that it decides this.
    pub fn equals(self, other: RecordSet) -> bool
        ensures { Decides result (self.bits ≡ other.bits) }
    {
        self == other
    }

    /// Tells whether the set has no records.
    pub fn is_empty(self) -> bool
        ensures { Decides result (self.bits ≡ 0) }
    {
        self.bits == 0
    }

    /// The least record of the set, or nothing where it is empty.
    pub fn first(self) -> Option<RecordNumber>
        ensures { LeastFound self.bits result }
    {
        if self.bits == 0 {
            return None;
        }
        Some(RecordNumber {
            index: self.bits.trailing_zeros() as u8,
        })
    }

    /// All records of the set but the least.
    pub fn rest(self) -> RecordSet
        ensures smaller { 0 < self.bits → result.bits < self.bits }
        ensures members { (m k : ℕ) → Least self.bits m → Has result.bits k ↔ (Has self.bits k × (m < k)) }
        ensures none { self.bits ≡ 0 → result.bits ≡ 0 }
    {
        RecordSet {
            bits: self.bits & self.bits.wrapping_sub(1),
        }
    }

    /// The records of the set that are below a count.
    pub fn below(self, count: u8) -> RecordSet
        ensures { result.bits ≡ self.bits % 2 ^ count }
    {
        if count as usize >= RECORDS {
            return self;
        }
        RecordSet {
            bits: self.bits & ((1 << count) - 1),
        }
    }
}
