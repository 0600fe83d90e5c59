//! The trees that ask finds, as check takes them, and each tree near them.
use crate::answer::Answer;
use crate::examples::Example;
use crate::judge::{Table, judge};
use crate::tally::Tally;
use crate::tree_cases::CASES;
use crate::trial::{BookTrial, no_names};
use prover::Restart;
use reader::Name;
use std::alloc::{AllocError, Global};

/// No tree here has so many bytes.
const BYTES: usize = 32;

/// An example that finds a tree with restart, and the records of its book and goal.
#[derive(Clone, Copy)]
pub struct Case<'c> {
    pub example: Example<'c>,
    pub table: Table<'c>,
}

impl Case<'_> {
    /// Checks bytes as both judges see them, without restart and with it.
    fn compare(&self, trial: &mut BookTrial<'_, Name>, bytes: &[u8]) -> Result<(), AllocError> {
        for restart in [Restart::Forbidden, Restart::Allowed] {
            let verdict = judge(trial.heap, &self.table, restart, bytes)?;
            trial.expect_check(self.example.goal, restart, bytes, verdict.into());
        }
        Ok(())
    }

    /// Puts every byte at one place of the tree.
    fn change_at(&self, trial: &mut BookTrial<'_, Name>, place: usize) -> Result<(), AllocError> {
        let mut bytes = Vec::from_slice(trial.heap, self.example.tree)?;
        for value in 0..=255u8 {
            if let Some(byte) = bytes.get_mut(place) {
                *byte = value;
            }
            self.compare(trial, &bytes)?;
        }
        Ok(())
    }

    /// Changes the tree at each place.
    // By place, as the changed bytes are another list.
    fn change_each(&self, trial: &mut BookTrial<'_, Name>) -> Result<(), AllocError> {
        for place in 0..self.example.tree.len() {
            self.change_at(trial, place)?;
        }
        Ok(())
    }

    /// Cuts the tree off at each length, and puts zeros behind it.
    fn cut_each(&self, trial: &mut BookTrial<'_, Name>) -> Result<(), AllocError> {
        let mut bytes = Vec::from_slice(trial.heap, self.example.tree)?;
        bytes.resize(BYTES, 0)?;
        for len in 0..BYTES {
            self.compare(trial, &bytes[..len])?;
        }
        Ok(())
    }

    /// The tree is found, and accepted; what is near it is judged alike.
    fn carry_out(&self, heap: Global) -> Result<Tally, AllocError> {
        let mut slots = no_names::<8>();
        let mut trial = BookTrial::new(heap, &mut slots, self.example.rules);
        self.example.expect(&mut trial)?;
        let Example { goal, tree, .. } = self.example;
        trial.expect_check(goal, Restart::Allowed, tree, Answer::Accepted);
        self.change_each(&mut trial)?;
        self.cut_each(&mut trial)?;
        Ok(trial.tally)
    }
}

/// Every case, over a book of its own.
// The sum is taken as in `examples`: four lines alike are not worth a closure.
pub fn trees(heap: Global) -> Result<Tally, AllocError> {
    let mut tally = Tally::new();
    for case in CASES {
        tally += case.carry_out(heap)?;
    }
    Ok(tally)
}
