//! How the comparisons of a group come out.
use crate::answer::Answer;
use std::fmt;
use std::ops::AddAssign;

/// The byte that a buffer is filled with before a call.
pub const UNTOUCHED: u8 = 0xaa;

/// How many comparisons were made, and the first of them, counted from 1, that did not come out as expected.
#[derive(Clone, Copy)]
pub struct Tally {
    compared: u32,
    wrong: Option<u32>,
}

impl Tally {
    /// Nothing compared yet.
    pub fn new() -> Tally {
        Tally {
            compared: 0,
            wrong: None,
        }
    }

    /// Takes in one more comparison.
    fn note(&mut self, right: bool) {
        self.compared = self.compared.saturating_add(1);
        if !right {
            self.wrong = self.wrong.or(Some(self.compared));
        }
    }

    /// Compares a value with the one that is wanted.
    pub fn expect<T: PartialEq + Drop>(&mut self, got: T, wanted: T) {
        self.note(got == wanted);
    }

    /// Compares each byte with the same one.
    fn expect_all(&mut self, bytes: &[u8], wanted: u8) {
        self.note(bytes.iter().all(|byte| *byte == wanted));
    }

    /// Compares a buffer with what the answer of an ask leaves in it: with yes the tree and zeros behind it, after a refusal what was
    /// there before, and zeros after every other answer.
    pub fn expect_buffer(&mut self, buffer: &[u8], answer: Answer, tree: &[u8]) {
        match answer {
            Answer::Yes { .. } => {
                let (found, behind) = buffer.split_at(tree.len().min(buffer.len()));
                self.expect(found, tree);
                self.expect_all(behind, 0);
            }
            Answer::Refused { .. } => self.expect_all(buffer, UNTOUCHED),
            _ => self.expect_all(buffer, 0),
        }
    }
}

/// The comparisons of another tally, after those of this one.
impl AddAssign for Tally {
    fn add_assign(&mut self, later: Tally) {
        let before = self.compared;
        let wrong_later = later.wrong.map(|at| before.saturating_add(at));
        self.wrong = self.wrong.or(wrong_later);
        self.compared = before.saturating_add(later.compared);
    }
}

impl fmt::Display for Tally {
    fn fmt<W: fmt::Write>(&self, f: &mut fmt::Formatter<W>) -> fmt::Result {
        match self.wrong {
            None => write!(f, "{} right", self.compared),
            Some(at) => write!(f, "wrong at {at}"),
        }
    }
}
