//! The numbers of records.
ghost use Rattle.std.specs.Prelude.{◌≡◌, ◌<◌};
ghost use Rattle.book.specs.Limits.{most_records};

/// At most so many records stand in a book.
pub const RECORDS: usize = 128;

/// The number of a record.
// Not one type with `KeyNumber`, the limit as its parameter: told apart by their limits alone, a key's number and a
// record's would be one type if these were equal.
// As a place it is `number.index as usize`, which a `From` would not make shorter.
// That a record is in use is a fact of the book too, so it is no field of the number.
#[derive(Clone, Copy, PartialEq, Debug)]
pub struct RecordNumber {
    pub index: u8,
    ghost below: { index < most_records },
}

// Written by hand, since a struct with a ghost field derives no `Default`.
impl Default for RecordNumber {
    /// The number of the first record.
    fn default() -> RecordNumber
        ensures { result.index ≡ 0 }
    {
        RecordNumber { index: 0 }
    }
}
