//! A case compared in each form.
use crate::asking::{Asking, Changes};
use crate::cases::Case;
use crate::counts::Counts;
use crate::forms::Form;
use crate::looking::Pair;
use crate::slow::{Again, Task};
use service::{Draft, Sealed};
use std::alloc::{AllocError, Global};

/// The slots of a register: no case has more names.
const SLOTS: usize = 8;

/// Comparisons under way, and how those before came out.
#[derive(Drop)]
pub struct Comparison {
    pub heap: Global,
    pub counts: Counts,
}

impl Comparison {
    /// None made yet.
    pub fn new(heap: Global) -> Comparison {
        Comparison {
            heap,
            counts: Counts::default(),
        }
    }

    /// The bytes of the book's rules.
    fn spelt<K: Form>(&self, case: &Case) -> Result<Vec<Vec<u8>>, AllocError> {
        let heap = self.heap;
        case.in_book()
            .iter()
            .map(|rule| K::spell(heap, rule))
            .try_collect(heap)
    }

    /// A sealed book of these rules: so many of them are added, the others supposed.
    fn sealed<'s, K: Form>(
        &mut self,
        slots: &'s mut [K],
        rules: &[Vec<u8>],
        added: usize,
    ) -> Sealed<'s, K> {
        let mut draft = Draft::new(slots);
        for rule in rules.iter().take(added) {
            self.counts.rules.note(draft.add(rule).is_ok());
        }
        let mut book = draft.seal();
        for rule in rules.iter().skip(added) {
            self.counts.rules.note(book.suppose(rule).is_ok());
        }
        book
    }

    /// Asks and checks a goal with a choice of restart.
    fn compare_question<K: Form>(
        &mut self,
        book: &mut Sealed<'_, K>,
        bytes: &[u8],
        task: Task<'_>,
        changes: Changes,
    ) -> Result<(), AllocError> {
        let mut asking = Asking {
            comparison: self,
            book,
            bytes,
            task,
        };
        asking.compare(changes)
    }

    /// Compares a case in a form: asks and checks with each choice of restart, and looks at these charts.
    pub fn compare_in<K: Form>(
        &mut self,
        case: &Case,
        added: usize,
        changes: Changes,
        pairs: &[Pair],
    ) -> Result<(), AllocError> {
        let rules = self.spelt::<K>(case)?;
        let mut slots = vec![in self.heap; K::blank(); SLOTS]?;
        let mut book = self.sealed(&mut slots, &rules, added);
        let Some(goal) = case.goal() else {
            return Ok(());
        };
        let bytes = K::spell(self.heap, goal)?;
        for again in [Again::Never, Again::Always] {
            self.compare_question(&mut book, &bytes, case.task(goal, again), changes)?;
        }
        self.compare_looks(&mut book, case, goal, &bytes, pairs);
        Ok(())
    }
}
