//! What the numbers of a rule's keys tell.
ghost use Rattle.std.specs.Prelude.{◌≡◌};
ghost use Rattle.book.specs.Indices.{indices};
ghost use Rattle.book.specs.KeyLists.{numbers_in, Mentioned};

use crate::key_numbers::KeyNumbers;
use keys::KeyNumber;

impl KeyNumbers {
    /// The number of the key that is mentioned at this place, or nothing where none is.
    pub fn get(&self, mention: u16) -> Option<KeyNumber>
        ensures { Mentioned (numbers_in self.now) mention result }
    {
        self.as_slice().get(mention as usize).copied()
    }

    /// The numbers, in order.
    fn as_slice(&self) -> &[KeyNumber]
        ensures { indices result.now ≡ numbers_in self.now }
    {
        &self.at[..self.count]
    }

    /// How many names are in use.
    pub fn names(&self) -> usize
        ensures { result ≡ self.now.names }
    {
        self.names
    }
}
