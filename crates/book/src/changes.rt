//! The changes of a book.
ghost use Rattle.std.specs.Prelude.{◌≡◌, ℕ, ◌%◌, ◌^◌, ◌<◌, ◌≤◌, min, max, [], length, Decides};
ghost use Rattle.keys.specs.Limits.{most_names};
ghost use Rattle.book.specs.Books.{records_of, names_of, in_force_of, Shows, MayStand, Pushed, PutInForce, CutBack, needed};
ghost use Rattle.book.specs.Records.{numbers, stored, set_at};

use crate::bodies::Bodies;
use crate::book::{Book, Mark};
use crate::number::{RECORDS, RecordNumber};
use crate::record::Record;
use crate::record_set::RecordSet;
use keys::{KeyNumber, NAMES};

impl Book {
    /// A book with no records and no names.
    pub fn empty() -> Book
        ensures { Shows result [] 0 0 }
    {
        let blank = Record {
            head: KeyNumber::default(),
            bodies: Bodies::none(),
        };
        Book {
            records: [blank; RECORDS],
            heads: [RecordSet::EMPTY; NAMES],
            count: 0,
            names: 0,
            in_force: RecordSet::EMPTY,
        }
    }

    /// Brings the names in use up to `names`, at most 64 and never fewer than before.
    pub fn admit(&mut self, names: usize)
        ensures { Shows self.new (records_of self.old) (max (names_of self.old) (min names most_names)) (in_force_of self.old) }
    {
        self.names = self.names.max(names.min(NAMES) as u8);
    }

    /// Puts a record that is in use in force.
    pub fn put_in_force(&mut self, number: RecordNumber)
        ensures { PutInForce self.old number.index self.new }
    {
        if number.index < self.count {
            self.in_force = self.in_force.insert(number);
        }
    }

    /// Puts a record behind the others, and gives its number; nothing where there is no room, or the head or a body is not
    /// in use.
    pub fn push(&mut self, head: KeyNumber, bodies: Bodies) -> Option<RecordNumber>
        ensures { Pushed self.old head.index (numbers bodies) self.new result }
    {
        if !self.may_stand(head, &bodies) {
            return None;
        }
        let number = RecordNumber { index: self.count };
        let listed = self.heads[head.index as usize].insert(number);
        self.records[self.count as usize] = Record { head, bodies };
        self.heads[head.index as usize] = listed;
        self.count += 1;
        Some(number)
    }

    /// Tells whether a record with this head and these bodies may stand next.
    pub fn may_stand(&self, head: KeyNumber, bodies: &Bodies) -> bool
        ensures { Decides result (MayStand self.now head.index (numbers bodies.now)) }
    {
        (self.count as usize) < RECORDS && head.index < self.names && bodies.all_below(self.count)
    }

    /// How many records and names are in use now.
    pub fn mark(&self) -> Mark
        ensures records { result.records ≡ length (records_of self.now) }
        ensures names { result.names ≡ names_of self.now }
    {
        Mark {
            records: self.count,
            names: self.names,
        }
    }

    /// Cuts the book back to the first records and names, but to no fewer names than the heads that are left need.
    pub fn truncate(&mut self, mark: Mark)
        ensures { CutBack self.old mark.records mark.names self.new }
    {
        let count = self.count.min(mark.records);
        self.names = self.needed(count).max(self.names.min(mark.names));
        self.count = count;
        self.in_force = self.in_force.below(count);
        cut(&mut self.heads, count);
    }

    /// How many names the heads of the first records need.
    fn needed(&self, count: u8) -> u8
        requires { count ≤ self.now.count }
        ensures { result ≡ needed (stored count self.now.records) }
    {
        self.records[..count as usize]
            .iter()
            .map(|record| record.head.index + 1)
            .max()
            .unwrap_or(0)
    }
}

/// Leaves in each set the records below a count.
fn cut(sets: &mut [RecordSet; NAMES], count: u8)
    ensures sets { (x : ℕ) → set_at sets.new x ≡ set_at sets.old x % 2 ^ count }
    ensures length { length sets.new ≡ length sets.old }
{
    for set in sets.iter_mut() {
        *set = set.below(count);
    }
}
