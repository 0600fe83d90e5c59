//! Why an input is refused, and where.
ghost use Rattle.std.specs.Prelude.{◌≡◌};
ghost use Rattle.reader.specs.Faults.{number_of};

/// Why an input is refused.
#[derive(Clone, Copy, Debug, PartialEq)]
pub enum Reason {
    /// The input has over 1,024 bytes.
    Oversize = 1,
    /// A byte or word that cannot stand there, or one that is missing.
    Misplaced = 2,
    /// A name of over 16 bytes.
    LongName = 3,
    /// A rule at depth 17.
    Deep = 4,
    /// A ninth body.
    Ninth = 5,
}

/// A refusal: its reason, and the place of the byte that it is about.
#[derive(Clone, Copy, Debug, PartialEq)]
pub struct ReaderFault {
    pub reason: Reason,
    pub place: usize,
}

impl ReaderFault {
    /// The number of the refusal.
    pub fn number(&self) -> u8
        ensures { result ≡ number_of self.now.reason }
    {
        self.reason as u8
    }
}
