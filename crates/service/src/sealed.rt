//! The calls of a sealed book that change what is in force.
ghost use Rattle.std.specs.Prelude.{[]};
ghost use Rattle.law.specs.Calls.{suppose as «supposing», withdraw as «withdrawing», reopen as «reopening», done};
ghost use Rattle.service.specs.Represents.{Does, told};
ghost use Rattle.service.specs.declared.state.State.TheVariants.{Open, Shut};

use crate::fault::Fault;
use crate::state::{Draft, Sealed};
use book::BookFault;
use keys::Key;
use reader::Written;

impl<'a, K: Key + Written + Copy> Sealed<'a, K> {
    /// Puts a rule in force until it is withdrawn.
    pub fn suppose(&mut self, rule: &[u8]) -> Result<(), Fault>
        ensures { Does (record { same = K.same; reading = K.reading }) («supposing» rule.now) (Shut self.old) (told result) [] (Shut self.new) }
    {
        if self.marks.is_full() {
            return Err(BookFault::TooManySuppositions.into());
        }
        let mark = self.draft.book.mark();
        let number = self.draft.take_in(rule)?;
        self.draft.book.put_in_force(number);
        self.marks.push(mark);
        Ok(())
    }

    /// Ends the supposition made last that still stands.
    pub fn withdraw(&mut self) -> Result<(), Fault>
        ensures { Does (record { same = K.same; reading = K.reading }) «withdrawing» (Shut self.old) (told result) [] (Shut self.new) }
    {
        let last = self.marks.pop().ok_or(BookFault::NoneStanding)?;
        self.draft.give_back(last);
        Ok(())
    }

    /// Ends all suppositions and gives the draft back.
    pub fn reopen(self) -> Draft<'a, K>
        ensures { Does (record { same = K.same; reading = K.reading }) «reopening» (Shut self.entry) done [] (Open result) }
    {
        let Sealed { mut draft, marks } = self;
        if let Some(first) = marks.first().copied() {
            draft.give_back(first);
        }
        draft
    }
}
