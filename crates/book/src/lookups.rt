//! What a book tells.
ghost use Rattle.std.specs.Prelude.{◌≡◌, ℕ, ◌^◌, ◌<◌, ◌≤◌, ◌↔◌, length, bit_or, slice_index_or};
ghost use Rattle.logic.specs.Rules.{WellFormed, head_of, bodies_of, supposing};
ghost use Rattle.logic.specs.Sets.{Has, mask};
ghost use Rattle.keys.specs.Limits.{most_names};
ghost use Rattle.book.specs.Books.{records_of, names_of, in_force_of, HeadsBelow, InUse};
ghost use Rattle.book.specs.Limits.{most_records};
ghost use Rattle.book.specs.Records.{numbers};

use crate::bodies::Bodies;
use crate::book::Book;
use crate::number::RecordNumber;
use crate::record::Record;
use crate::record_set::RecordSet;
use keys::KeyNumber;

impl Book {
    /// How many records are in use.
    pub fn count(&self) -> usize
        ensures { result ≡ length (records_of self.now) }
    {
        self.count as usize
    }

    /// How many names are in use.
    pub fn names(&self) -> usize
        ensures { result ≡ names_of self.now }
    {
        self.names as usize
    }

    /// The records in force.
    pub fn in_force(&self) -> RecordSet
        ensures { result.bits ≡ in_force_of self.now }
    {
        self.in_force
    }

    /// The head of a record.
    pub fn head(&self, number: RecordNumber) -> KeyNumber
        ensures place { (d : Record) → result ≡ (slice_index_or self.now.records number.index d).head }
        ensures used { InUse self.now number.index → result.index ≡ head_of (records_of self.now) number.index }
    {
        self.records[number.index as usize].head
    }

    /// The bodies of a record.
    pub fn bodies(&self, number: RecordNumber) -> &Bodies
        ensures place { (d : Record) → result.now ≡ (slice_index_or self.now.records number.index d).bodies }
        ensures used { InUse self.now number.index → numbers result.now ≡ bodies_of (records_of self.now) number.index }
    {
        &self.records[number.index as usize].bodies
    }

    /// A set with the bodies of a record put in force.
    pub fn supposing(&self, set: RecordSet, number: RecordNumber) -> RecordSet
        ensures place { (d : Record) → result.bits ≡ bit_or set.bits (mask (numbers (slice_index_or self.now.records number.index d).bodies)) }
        ensures used { InUse self.now number.index → result.bits ≡ supposing (records_of self.now) set.bits number.index }
    {
        set.union(self.records[number.index as usize].bodies.set)
    }

    /// The records that a name heads.
    pub fn with_head(&self, name: KeyNumber) -> RecordSet
        ensures { (r : ℕ) → Has result.bits r ↔ ((r < length (records_of self.now)) × (head_of (records_of self.now) r ≡ name.index)) }
    {
        self.heads[name.index as usize]
    }
}

/// In every book a record's bodies have smaller numbers and its head is a name in use; at most 128 records and 64 names
/// are in use; and the records in force are records in use.
pub fn book_is_well_formed(book: &Book)
    ensures bodies { WellFormed (records_of book.now) }
    ensures heads { HeadsBelow (names_of book.now) (records_of book.now) }
    ensures records { length (records_of book.now) ≤ most_records }
    ensures names { names_of book.now ≤ most_names }
    ensures force { in_force_of book.now < 2 ^ length (records_of book.now) }
{}
