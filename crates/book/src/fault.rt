//! The refusals of a book.
ghost use Rattle.std.specs.Prelude.{◌≡◌};
ghost use Rattle.book.specs.Faults.{fault_number};

/// Why a book refuses: a rule for want of room, which the book finds itself, or a supposition or its end, which the service
/// finds, as it counts the suppositions. No refusal is of a place in a text: its place is always 0.
#[derive(Clone, Copy, PartialEq, Debug)]
pub enum BookFault {
    /// There would be more than 128 records.
    TooManyRecords = 21,
    /// There would be more than 32 suppositions.
    TooManySuppositions = 30,
    /// No supposition stands.
    NoneStanding = 31,
}

impl BookFault {
    /// The number of the refusal.
    pub fn number(&self) -> u8
        ensures { result ≡ fault_number self.now }
    {
        *self as u8
    }
}
