//! A book with a goal, as trees.
use crate::nodes::{Node, grow};
use crate::rules::Rule;
use crate::sets::with_rules;
use crate::slow::{Again, Task};
use std::alloc::{AllocError, Global};
use std::collections::BTreeSet;

/// A book with a goal: its rules and the goal behind them, and the records in force when the goal is asked: those of the rules, and
/// those of the goal's bodies.
#[derive(Drop)]
pub struct Case {
    rules: Vec<Rule>,
    in_force: BTreeSet<u8>,
}

impl Case {
    /// The case that nodes write down, the last rule as the goal.
    pub fn new(heap: Global, nodes: &[Node]) -> Result<Case, AllocError> {
        let rules = grow(heap, nodes)?;
        let mut in_force = BTreeSet::new(heap);
        if let Some((goal, in_book)) = rules.split_last() {
            in_force = with_rules(&in_force, in_book)?;
            in_force = with_rules(&in_force, &goal.bodies)?;
        }
        Ok(Case { rules, in_force })
    }

    /// The rules of the book.
    pub fn in_book(&self) -> &[Rule] {
        self.rules.split_last().map_or(&[], |(_, in_book)| in_book)
    }

    /// The goal.
    pub fn goal(&self) -> Option<&Rule> {
        self.rules.last()
    }

    /// What is asked of the slow prover, with the rule of the goal.
    pub fn task(&self, goal: &Rule, again: Again) -> Task<'_> {
        Task {
            rules: &self.rules,
            in_force: &self.in_force,
            goal: goal.head,
            again,
        }
    }
}
