//! The check of the bytes of a success tree.
ghost use Rattle.std.specs.Prelude.{◌≡◌, ◌<◌, ◌≤◌, [], ◌∷◌, length, slice_index};
ghost use Rattle.book.specs.Books.{records_of};
ghost use Rattle.prover.specs.Read.{Judged, OfTrees, Applying, Reads};
ghost use Rattle.prover.specs.Settings.{allowed, query_of};

use crate::step::Step;
use crate::task::Restart;
use crate::verdict::{Misread, Verdict};
use book::{Book, RecordNumber, RecordSet};
use keys::KeyNumber;

/// Tells whether the bytes are one whole success tree of the goal from this set, or the place at which they are not.
pub fn check(
    book: &Book,
    goal: KeyNumber,
    restart: Restart,
    set: RecordSet,
    bytes: &[u8],
) -> Verdict
    ensures judged { Judged (records_of book.now) (allowed restart) goal.index (query_of set.bits goal.index ∷ []) 0 bytes.now result }
    ensures trees { OfTrees (records_of book.now) (allowed restart) goal.index set.bits bytes.now result }
{
    let reading = Reading {
        book,
        goal,
        restart,
        bytes,
    };
    match reading.read_tree(0, Query { set, name: goal }) {
        Err(Misread { place }) => Verdict::Rejected { place },
        Ok(end) if end < bytes.len() => Verdict::Rejected { place: end },
        Ok(_) => Verdict::Accepted,
    }
}

/// A name that is asked from a set.
#[derive(Clone, Copy)]
struct Query {
    set: RecordSet,
    name: KeyNumber,
}

/// The bytes that are read, and what every query of their tree has in common.
#[derive(Clone, Copy)]
struct Reading<'s> {
    book: &'s Book,
    goal: KeyNumber,
    restart: Restart,
    bytes: &'s [u8],
}

impl Reading<'_> {
    /// Reads one tree from the place `at` on, and gives the place behind it.
    #[cycle(trees)]
    fn read_tree(&self, at: usize, query: Query) -> Result<usize, Misread>
        requires { at ≤ length self.now.bytes.now }
        ensures { Reads self.now query at result }
    {
        let kind = *self.bytes.get(at).ok_or(Misread { place: at })?;
        match (Step::try_from(kind), self.restart) {
            (Ok(Step::Rule), _) => self.read_rule(at, query),
            (Ok(Step::Restart), Restart::Allowed) => self.read_tree(
                at + 1,
                Query {
                    name: self.goal,
                    ..query
                },
            ),
            _ => Err(Misread { place: at }),
        }
    }

    /// Reads the rest of a tree by a rule: the record's number, and its bodies' trees.
    #[cycle(trees)]
    fn read_rule(&self, at: usize, query: Query) -> Result<usize, Misread>
        requires within { at < length self.now.bytes.now }
        requires rule { slice_index self.now.bytes.now at ≡ 1 }
        ensures { Reads self.now query at result }
    {
        let place = at + 1;
        let index = *self.bytes.get(place).ok_or(Misread { place })?;
        let number = self.applying(query, index).ok_or(Misread { place })?;
        let mut end = place + 1;
        for body in self.book.bodies(number).as_slice() {
            let asked = Query {
                set: self.book.supposing(query.set, *body),
                name: self.book.head(*body),
            };
            end = self.read_tree(end, asked)?;
        }
        Ok(end)
    }

    /// The record of a number that is in force and has the head that is asked.
    fn applying(&self, query: Query, index: u8) -> Option<RecordNumber>
        ensures { Applying (records_of self.now.book.now) query.set.bits query.name.index index result }
    {
        if index as usize >= self.book.count() {
            return None;
        }
        let number = RecordNumber { index };
        let applies = query.set.contains(number) && self.book.head(number) == query.name;
        applies.then_some(number)
    }
}
