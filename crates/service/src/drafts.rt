//! The calls of a draft.
ghost use Rattle.std.specs.Prelude.{[], length};
ghost use Rattle.law.specs.Calls.{at_start, add, seal as «sealing», done};
ghost use Rattle.service.specs.Represents.{Represents, Does, told};
ghost use Rattle.service.specs.declared.state.State.TheVariants.{Open, Shut};

use crate::fault::Fault;
use crate::state::{Draft, Sealed};
use arrayvec::ArrayVec;
use book::Book;
use keys::{Key, Register};
use reader::Written;

impl<'a, K: Key + Written + Copy> Draft<'a, K> {
    /// An empty draft, whose keys are to lie in these slots.
    pub fn new(slots: &'a mut [K]) -> Self
        ensures { Represents (record { same = K.same; reading = K.reading }) (length slots.old) at_start (Open result) }
    {
        Draft {
            register: Register::new(slots),
            book: Book::empty(),
        }
    }

    /// Adds a rule.
    pub fn add(&mut self, rule: &[u8]) -> Result<(), Fault>
        ensures { Does (record { same = K.same; reading = K.reading }) (add rule.now) (Open self.old) (told result) [] (Open self.new) }
    {
        let number = self.take_in(rule)?;
        self.book.put_in_force(number);
        Ok(())
    }

    /// Seals the book.
    pub fn seal(self) -> Sealed<'a, K>
        ensures { Does (record { same = K.same; reading = K.reading }) «sealing» (Open self.entry) done [] (Shut result) }
    {
        Sealed {
            draft: self,
            marks: ArrayVec::new(),
        }
    }
}
