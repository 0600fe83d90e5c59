//! The second step of entering a rule: its records, as the rules in it end.
ghost use Rattle.std.specs.Prelude.{◌≡◌, ℕ, ◌+◌, ◌<◌, ◌≤◌, [], ◌∷◌, ◌++◌, length, slice_index_or};
ghost use Rattle.logic.specs.Rules.{Rule};
ghost use Rattle.logic.specs.Sets.{AllBelow};
ghost use Rattle.reader.specs.Outlines.{ended};
ghost use Rattle.book.specs.Limits.{most_records, most_bodies};
ghost use Rattle.book.specs.Books.{records_of, names_of};
ghost use Rattle.book.specs.Entering.{LaidOut};
ghost use Rattle.book.specs.Entries.{Taken, EndsRule, Longer, Stored, EntersRule, Refuses};
ghost use Rattle.book.specs.KeyLists.{numbers_in};
ghost use Rattle.book.specs.Numbers.{record_indices};

use crate::bodies::Bodies;
use crate::book::Book;
use crate::fault::BookFault;
use crate::key_numbers::KeyNumbers;
use crate::number::{RECORDS, RecordNumber};
use arrayvec::ArrayVec;
use reader::{End, Outline};

/// The records of rules that have ended, while the rule whose bodies they are has not, in the order of their ends.
type Waiting = ArrayVec<RecordNumber, RECORDS>;

/// Takes the last of those that wait as bodies, or nothing where there are fewer, or too many for a rule.
fn take(waiting: &mut Waiting, count: u8) -> Option<Bodies>
    ensures { Taken (record_indices waiting.old.items) count (record_indices waiting.new.items) result }
{
    let others = waiting.len().checked_sub(count as usize)?;
    // A loop with `?`: a `try_fold` would carry the same bodies through a closure.
    let mut bodies = Bodies::none();
    for body in &waiting[others..] {
        bodies = bodies.with(*body)?;
    }
    waiting.truncate(others);
    Some(bodies)
}

impl Book {
    /// Enters the rule of an outline whose keys have these numbers, and gives the number of its record. A refusal leaves the
    /// book as it is.
    pub fn enter(
        &mut self,
        outline: &Outline,
        numbers: &KeyNumbers,
    ) -> Result<RecordNumber, BookFault>
        ensures entered { (rule : Rule) → LaidOut rule (numbers_in numbers.now) (ended outline.now) → EntersRule self.old numbers.now.names rule self.new result }
        ensures refused { Refuses self.old self.new result }
    {
        let ends = outline.ends();
        if self.count as usize + ends.len() > RECORDS {
            return Err(BookFault::TooManyRecords);
        }
        let mark = self.mark();
        self.admit(numbers.names());
        let entered = self.enter_rules(ends, numbers);
        // No closure: one that cuts back would keep to itself what it changes.
        if entered.is_none() {
            self.truncate(mark);
        }
        // The outline of a rule, with the numbers of its keys, never comes to nothing: of it a refusal says want of room alone.
        entered.ok_or(BookFault::TooManyRecords)
    }

    /// Enters rules in the order in which they end, and gives the number of the last.
    fn enter_rules(&mut self, ends: &[End], numbers: &KeyNumbers) -> Option<RecordNumber>
        requires room { length (records_of self.old) + length ends.now ≤ most_records }
        requires named { numbers.now.names ≤ names_of self.old }
        requires few_bodies { (i : ℕ) → i < length ends.now → (slice_index_or ends.now i (record { mention = 0; bodies = 0 })).bodies ≤ most_bodies }
        ensures stored { Stored (numbers_in numbers.now) ends.now self.old self.new result }
        ensures longer { Longer self.old self.new }
    {
        let mut waiting = Waiting::new();
        for end in ends {
            let number = self.enter_rule(*end, numbers, &mut waiting)?;
            waiting.push(number);
        }
        waiting.last().copied()
    }

    /// Enters a rule that has ended, with the last of those that wait as its bodies.
    fn enter_rule(
        &mut self,
        end: End,
        numbers: &KeyNumbers,
        waiting: &mut Waiting,
    ) -> Option<RecordNumber>
        requires room { length (records_of self.old) < most_records }
        requires named { numbers.now.names ≤ names_of self.old }
        requires earlier { AllBelow (length (records_of self.old)) (record_indices waiting.old.items) }
        requires few_bodies { end.bodies ≤ most_bodies }
        ensures { EndsRule (numbers_in numbers.now) (record_indices waiting.old.items) end self.old (record_indices waiting.new.items) self.new result }
    {
        let head = numbers.get(end.mention)?;
        let bodies = take(waiting, end.bodies)?;
        self.push(head, bodies)
    }
}
