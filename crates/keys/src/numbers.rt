//! The numbers of keys, and the refusal where none is left.
ghost use Rattle.std.specs.Prelude.{◌≡◌, ◌<◌, ◌≤◌};
ghost use Rattle.keys.specs.Limits.{most_names};

/// At most so many keys have a number.
pub const NAMES: usize = 64;

/// The number of a key.
#[derive(Clone, Copy, PartialEq, Debug)]
pub struct KeyNumber {
    pub index: u8,
    ghost below: { index < most_names },
}

// Written by hand, since a struct with a ghost field derives no `Default`.
impl Default for KeyNumber {
    /// The number of the first key.
    fn default() -> KeyNumber
        ensures { result.index ≡ 0 }
    {
        KeyNumber { index: 0 }
    }
}

/// How many keys have a number.
#[derive(Clone, Copy)]
pub struct KeyCount {
    pub count: usize,
    ghost few: { count ≤ most_names },
}

impl KeyCount {
    /// No key has a number.
    pub const NONE: KeyCount = KeyCount { count: 0 };
}

/// No number is left for the key that is written at `place`.
#[derive(Clone, Copy, PartialEq, Debug)]
pub struct RegisterFault {
    pub place: usize,
}

impl RegisterFault {
    /// The number of the refusal.
    // There is one refusal: its number needs no enum.
    pub const NUMBER: u8 = 11;

    /// The number of the refusal.
    pub fn number(&self) -> u8
        ensures { result ≡ 11 }
    {
        Self::NUMBER
    }
}
