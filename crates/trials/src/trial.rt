//! Books under trial: each call of the service is compared with the answer that it is to give.
use crate::answer::Answer;
use crate::tally::{Tally, UNTOUCHED};
use keys::Key;
use prover::Restart;
use reader::{Name, Written};
use service::{Draft, Sealed};
use std::alloc::{AllocError, Global};

/// The budget where no other is of interest.
const AMPLE: u32 = 1_000;
/// The bytes of a tree buffer where no other number is of interest.
const ROOM: usize = 72;

/// What an ask is given.
#[derive(Clone, Copy)]
pub struct Question<'q> {
    pub goal: &'q [u8],
    pub restart: Restart,
    pub budget: u32,
    /// The length of the tree buffer.
    pub room: usize,
}

impl<'q> Question<'q> {
    /// With a budget and a buffer that are ample.
    pub fn ample(goal: &'q [u8], restart: Restart) -> Question<'q> {
        Question {
            goal,
            restart,
            budget: AMPLE,
            room: ROOM,
        }
    }
}

/// A draft, and how the comparisons of its calls have come out so far.
// One struct generic over the state of the book gets no proof: "a type argument holds a `&mut` and a struct that has a ghost field".
#[derive(Drop)]
pub struct DraftTrial<'b, K> {
    pub heap: Global,
    pub tally: Tally,
    draft: Draft<'b, K>,
}

/// A sealed book, and how the comparisons of its calls have come out so far.
#[derive(Drop)]
pub struct BookTrial<'b, K> {
    pub heap: Global,
    pub tally: Tally,
    book: Sealed<'b, K>,
}

/// Slots for so many names.
pub fn no_names<const N: usize>() -> [Name; N] {
    [Name::new(b""); N]
}

impl<'b, K: Key + Written + Copy> DraftTrial<'b, K> {
    /// An empty draft over the slots.
    pub fn new(heap: Global, slots: &'b mut [K]) -> Self {
        DraftTrial {
            heap,
            tally: Tally::new(),
            draft: Draft::new(slots),
        }
    }

    /// Adds a rule.
    pub fn expect_add(&mut self, rule: &[u8], answer: Answer) {
        let added = self.draft.add(rule);
        self.tally.expect(Answer::from(added), answer);
    }

    /// Seals the book.
    pub fn seal(self) -> BookTrial<'b, K> {
        let DraftTrial { heap, tally, draft } = self;
        BookTrial {
            heap,
            tally,
            book: draft.seal(),
        }
    }
}

impl<'b, K: Key + Written + Copy> BookTrial<'b, K> {
    /// A book of the rules, each of which has to be taken.
    pub fn new(heap: Global, slots: &'b mut [K], rules: &[&[u8]]) -> Self {
        let mut trial = DraftTrial::new(heap, slots);
        for rule in rules {
            trial.expect_add(rule, Answer::Done);
        }
        trial.seal()
    }

    /// Puts a rule in force.
    pub fn expect_suppose(&mut self, rule: &[u8], answer: Answer) {
        let supposed = self.book.suppose(rule);
        self.tally.expect(Answer::from(supposed), answer);
    }

    /// Ends the last supposition.
    pub fn expect_withdraw(&mut self, answer: Answer) {
        let withdrawn = self.book.withdraw();
        self.tally.expect(Answer::from(withdrawn), answer);
    }

    /// Asks, compares the answer, and gives the buffer as the call leaves it.
    pub fn expect_answer(
        &mut self,
        question: &Question<'_>,
        answer: Answer,
    ) -> Result<Vec<u8>, AllocError> {
        let Question {
            goal,
            restart,
            budget,
            room,
        } = *question;
        let mut buffer = vec![in self.heap; UNTOUCHED; room]?;
        let asked = self.book.ask(goal, restart, budget, &mut buffer);
        self.tally.expect(Answer::from(asked), answer);
        Ok(buffer)
    }

    /// Asks, and compares the answer and the buffer.
    pub fn expect_ask(
        &mut self,
        question: &Question<'_>,
        answer: Answer,
        tree: &[u8],
    ) -> Result<(), AllocError> {
        let buffer = self.expect_answer(question, answer)?;
        self.tally.expect_buffer(&buffer, answer, tree);
        Ok(())
    }

    /// Checks bytes.
    pub fn expect_check(&mut self, goal: &[u8], restart: Restart, tree: &[u8], answer: Answer) {
        let checked = self.book.check(goal, restart, tree);
        self.tally.expect(Answer::from(checked), answer);
    }

    /// Gives the draft back.
    pub fn reopen(self) -> DraftTrial<'b, K> {
        let BookTrial { heap, tally, book } = self;
        DraftTrial {
            heap,
            tally,
            draft: book.reopen(),
        }
    }
}
