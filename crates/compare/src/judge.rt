//! A slow judge of tree bytes.
use crate::rules::Rule;
use crate::sets::with_rules;
use crate::slow::{AGAIN, Again, Query, RULE, Task};
use std::alloc::AllocError;

/// The place at which bytes are no tree.
// Not the `Verdict` of the service: the slow judge shares no type with it.
#[derive(Clone, Copy, PartialEq)]
pub struct NoTree {
    pub place: usize,
}

/// Whether bytes are one whole tree.
pub type Judgement = Result<(), NoTree>;

/// Why no tree is read.
// Not the `Stop` of the slow prover: a place is no reason to stop a search, so each has its own.
#[derive(Drop)]
enum Misfit {
    At(usize),
    Memory(AllocError),
}

impl From<AllocError> for Misfit {
    fn from(error: AllocError) -> Misfit {
        Misfit::Memory(error)
    }
}

/// Bytes that are read as a tree of a task.
#[derive(Clone, Copy)]
struct Reading<'t> {
    task: Task<'t>,
    bytes: &'t [u8],
}

impl<'t> Reading<'t> {
    /// Where the tree of a name ends that begins at a place. `left` falls with each kind byte.
    #[cycle(read_read_rule)]
    fn read(&self, place: usize, query: Query<'_>, left: usize) -> Result<usize, Misfit> {
        let left = left.checked_sub(1).ok_or(Misfit::At(place))?;
        let next = place.saturating_add(1);
        match self.bytes.get(place).copied() {
            Some(RULE) => self.read_rule(next, query, left),
            Some(AGAIN) if self.task.again == Again::Always => {
                let name = self.task.goal;
                self.read(next, Query { name, ..query }, left)
            }
            _ => Err(Misfit::At(place)),
        }
    }

    /// The rule of the number byte at a place, where it serves a query.
    fn rule_at(&self, place: usize, query: Query<'_>) -> Option<&'t Rule> {
        let number = self.bytes.get(place)?;
        self.task.serving(*number, query)
    }

    /// Where the trees of the bodies end of the rule whose number byte stands at a place.
    #[cycle(read_read_rule)]
    fn read_rule(&self, place: usize, query: Query<'_>, left: usize) -> Result<usize, Misfit> {
        let rule = self.rule_at(place, query).ok_or(Misfit::At(place))?;
        let mut end = place.saturating_add(1);
        for body in &rule.bodies {
            let query = Query {
                name: body.head,
                set: &with_rules(query.set, &body.bodies)?,
            };
            end = self.read(end, query, left)?;
        }
        Ok(end)
    }
}

/// Judges bytes as a tree of the goal.
pub fn judge(task: Task<'_>, bytes: &[u8]) -> Result<Judgement, AllocError> {
    let reading = Reading { task, bytes };
    let left = bytes.len().saturating_add(1);
    match reading.read(0, task.first_query(), left) {
        Ok(end) if end == bytes.len() => Ok(Ok(())),
        Ok(place) | Err(Misfit::At(place)) => Ok(Err(NoTree { place })),
        Err(Misfit::Memory(error)) => Err(error),
    }
}
