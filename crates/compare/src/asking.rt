//! Asks and checks of the service beside those of the slow prover.
use crate::comparing::Comparison;
use crate::forms::Form;
use crate::judge::{Judgement, NoTree, judge};
use crate::slow::{Again, Outcome as SlowOutcome, Stop, Task, decide};
use prover::{Outcome, Restart, Verdict};
use service::Sealed;
use std::alloc::AllocError;

/// The byte that a buffer is filled with before an ask.
const UNTOUCHED: u8 = 0xaa;

/// The budget of an ask.
const BUDGET: u32 = 1_000;

/// The bytes of the buffer of an ask.
const ROOM: usize = 64;

/// No longer tree is changed byte by byte.
const LONGEST_CHANGED: usize = 16;

/// With what an ask is made.
#[derive(Clone, Copy)]
struct Settings {
    budget: u32,
    room: usize,
}

/// Whether the trees that are found are changed byte by byte.
#[derive(Clone, Copy, PartialEq)]
pub enum Changes {
    Made,
    LeftOut,
}

/// The choice of restart, as the service takes it.
impl From<Again> for Restart {
    fn from(again: Again) -> Restart {
        match again {
            Again::Never => Restart::Forbidden,
            Again::Always => Restart::Allowed,
        }
    }
}

/// What the service says of bytes that are no tree.
impl From<NoTree> for Verdict {
    fn from(NoTree { place }: NoTree) -> Verdict {
        Verdict::Rejected { place }
    }
}

/// Whether the buffer holds the tree and zeros behind it.
fn is_tree_with_zeros(buffer: &[u8], tree: &[u8]) -> bool {
    buffer
        .strip_prefix(tree)
        .is_some_and(|rest| rest.iter().all(|byte| *byte == 0))
}

/// A goal beside its book: the sealed book that is asked, the bytes of the goal, and what is asked of the slow prover.
#[derive(Drop)]
pub struct Asking<'a, 's, K> {
    pub comparison: &'a mut Comparison,
    pub book: &'a mut Sealed<'s, K>,
    pub bytes: &'a [u8],
    pub task: Task<'a>,
}

impl<'a, 's, K: Form> Asking<'a, 's, K> {
    /// Notes an answer beside what the slow prover came to. A tree that exceeds the buffer is not written.
    fn note_outcome(
        &mut self,
        wanted: &SlowOutcome,
        got: Option<Outcome>,
        buffer: &[u8],
    ) -> Result<(), AllocError> {
        let agrees = |wanted: Outcome, tree: &[u8]| {
            got == Some(wanted) && is_tree_with_zeros(buffer, tree)
        };
        let counts = &mut self.comparison.counts;
        let count = wanted.count;
        match &wanted.found {
            Ok(Some(tree)) => {
                let len = tree.len();
                if len <= buffer.len() {
                    counts.yes.note(agrees(Outcome::Yes { count, len }, tree));
                } else {
                    counts.long.note(agrees(Outcome::Long { count, len }, &[]));
                }
            }
            Ok(None) => counts.no.note(agrees(Outcome::No { count }, &[])),
            Err(Stop::Spent) => counts.spent.note(agrees(Outcome::Spent { count }, &[])),
            Err(Stop::Lost) => counts.no.note(false),
            Err(Stop::Memory(error)) => return Err(*error),
        }
        Ok(())
    }

    /// Asks with a budget and a buffer of so many bytes, and compares with what it comes to.
    fn compare_ask(&mut self, settings: Settings, wanted: &SlowOutcome) -> Result<(), AllocError> {
        let mut buffer = vec![in self.comparison.heap; UNTOUCHED; settings.room]?;
        let restart = Restart::from(self.task.again);
        let got = self
            .book
            .ask(self.bytes, restart, settings.budget, &mut buffer);
        self.note_outcome(wanted, got.ok(), &buffer)
    }

    /// Whether the service judges bytes as the slow judge did.
    fn agrees(&mut self, again: Again, bytes: &[u8], wanted: Judgement) -> bool {
        let wanted = wanted.map_or_else(Verdict::from, |()| Verdict::Accepted);
        self.book
            .check(self.bytes, Restart::from(again), bytes)
            .is_ok_and(|verdict| verdict == wanted)
    }

    /// Checks bytes near a tree, with each choice of restart.
    fn compare_changed(&mut self, bytes: &[u8]) -> Result<(), AllocError> {
        for again in [Again::Never, Again::Always] {
            let wanted = judge(Task { again, ..self.task }, bytes)?;
            let agreed = self.agrees(again, bytes, wanted);
            let counts = &mut self.comparison.counts;
            match wanted {
                Ok(()) => counts.changed.note(agreed),
                Err(_) => counts.spoilt.note(agreed),
            }
        }
        Ok(())
    }

    /// Puts every other byte at each place of a tree in turn.
    // By place: the changed bytes are another list.
    fn change_each_byte(&mut self, tree: &[u8]) -> Result<(), AllocError> {
        for (place, own) in tree.iter().enumerate() {
            let mut bytes = Vec::from_slice(self.comparison.heap, tree)?;
            for other in (0..=u8::MAX).filter(|other| other != own) {
                if let Some(byte) = bytes.get_mut(place) {
                    *byte = other;
                }
                self.compare_changed(&bytes)?;
            }
        }
        Ok(())
    }

    /// Checks a tree that was found, and asks for it with just enough room and with one byte less.
    fn compare_tree(&mut self, wanted: &SlowOutcome, tree: &[u8]) -> Result<(), AllocError> {
        let judged = judge(self.task, tree)?;
        let agreed = judged.is_ok() && self.agrees(self.task.again, tree, judged);
        self.comparison.counts.trees.note(agreed);
        for room in [tree.len(), tree.len().saturating_sub(1)] {
            let budget = BUDGET;
            self.compare_ask(Settings { budget, room }, wanted)?;
        }
        Ok(())
    }

    /// Asks the goal, with one query less than it needs too.
    fn compare_asks(&mut self) -> Result<SlowOutcome, AllocError> {
        let heap = self.comparison.heap;
        let room = ROOM;
        let budget = BUDGET;
        let wanted = decide(heap, self.task, budget);
        self.compare_ask(Settings { budget, room }, &wanted)?;
        if wanted.count > 1 {
            let budget = wanted.count - 1;
            let less = decide(heap, self.task, budget);
            self.compare_ask(Settings { budget, room }, &less)?;
        }
        Ok(wanted)
    }

    /// Compares all that is asked of the goal.
    pub fn compare(&mut self, changes: Changes) -> Result<(), AllocError> {
        let wanted = self.compare_asks()?;
        if let Ok(Some(tree)) = &wanted.found {
            self.compare_tree(&wanted, tree)?;
            if changes == Changes::Made && tree.len() <= LONGEST_CHANGED {
                self.change_each_byte(tree)?;
            }
        }
        Ok(())
    }
}
