//! Taking a rule or goal in, and giving it back.
ghost use Rattle.std.specs.Prelude.{◌≡◌, OnErr};
ghost use Rattle.service.specs.Contents.{TakesIn, GivenBack};
ghost use Rattle.service.specs.Goals.{Questioned};

use crate::fault::Fault;
use crate::state::{Draft, Sealed};
use book::{Book, Mark, RecordNumber, number_keys};
use keys::Key;
use reader::Written;

impl<K: Key + Written + Copy> Draft<'_, K> {
    /// Takes a rule in behind what stands, not yet in force, and gives the number of its record. A refusal changes nothing.
    pub(crate) fn take_in(&mut self, rule: &[u8]) -> Result<RecordNumber, Fault>
        ensures { TakesIn (record { same = K.same; reading = K.reading }) rule.now result self.old self.new }
    {
        let outline = K::outline(rule)?;
        let used = self.register.used();
        let numbers = number_keys(&mut self.register, rule, &outline)?;
        let entered = self.book.enter(&outline, &numbers);
        // No closure that cuts back: it would keep to itself what it changes.
        if entered.is_err() {
            self.register.truncate(used);
        }
        Ok(entered?)
    }

    /// Cuts the register and the book back to a mark.
    pub(crate) fn give_back(&mut self, mark: Mark)
        ensures { GivenBack self.old mark self.new }
    {
        self.register.truncate(mark.names as usize);
        self.book.truncate(mark);
    }
}

impl<K: Key + Written + Copy> Sealed<'_, K> {
    /// Takes a goal in, asks a question about it, and gives it back. The question is lent, so that what it writes stays known.
    pub(crate) fn with_goal<R, F: FnMut(&Book, RecordNumber) -> R>(
        &mut self,
        goal: &[u8],
        question: &mut F,
    ) -> Result<R, Fault>
        requires { (b : _) (n : _) → F.pre question.old b n }
        ensures questioned { Questioned (record { same = K.same; reading = K.reading }) goal.now (λ b n r. F.step question.old b n r question.new) self.old result self.new }
        ensures unasked { OnErr result (question.new ≡ question.old) }
    {
        let mark = self.draft.book.mark();
        let number = self.draft.take_in(goal)?;
        let answer = question(&self.draft.book, number);
        self.draft.give_back(mark);
        Ok(answer)
    }
}
