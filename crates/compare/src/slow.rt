//! A slow prover: the rules by which a goal is asked, carried out on trees and sets, with nothing done to be fast.
use crate::rules::{Rule, find};
use crate::sets::with_rules;
use std::alloc::{AllocError, AllocFailed, Global};
use std::collections::BTreeSet;

/// No way down is longer.
const LONGEST_WAY: u32 = 129 * 64;

/// The kind byte of a tree by a rule.
pub const RULE: u8 = 1;

/// The kind byte of a tree by the goal's head asked again.
pub const AGAIN: u8 = 2;

/// Whether the goal's head may be asked again.
// Not the `Restart` of the service: the slow prover shares no type with it.
#[derive(Clone, Copy, PartialEq)]
pub enum Again {
    Never,
    Always,
}

/// What is asked: the rules, the goal last; the rules in force at first; the goal's head; and how.
#[derive(Clone, Copy)]
pub struct Task<'t> {
    pub rules: &'t [Rule],
    pub in_force: &'t BTreeSet<u8>,
    pub goal: u8,
    pub again: Again,
}

/// A name asked from a set.
#[derive(Clone, Copy)]
pub struct Query<'q> {
    pub name: u8,
    pub set: &'q BTreeSet<u8>,
}

impl Query<'_> {
    /// Whether the rule is in force, and has the name as its head.
    fn is_served_by(&self, rule: &Rule) -> bool {
        rule.head == self.name && self.set.contains(&rule.number)
    }
}

impl<'t> Task<'t> {
    /// The query that asks the goal from the rules in force at first.
    pub fn first_query(&self) -> Query<'t> {
        Query {
            name: self.goal,
            set: self.in_force,
        }
    }

    /// The rule of a record, where it serves a query.
    pub fn serving(&self, number: u8, query: Query<'_>) -> Option<&'t Rule> {
        find(self.rules, number).filter(|rule| query.is_served_by(rule))
    }
}

/// A query that was begun, with a set of its own.
#[derive(Drop)]
struct Begun {
    name: u8,
    set: BTreeSet<u8>,
}

/// The queries that were begun and not ended, how many were begun in all, and how many may be.
#[derive(Drop)]
struct Walk<'t> {
    heap: Global,
    task: Task<'t>,
    way: Vec<Begun>,
    count: u32,
    budget: u32,
}

/// Why a walk comes to no answer.
// Not the `Misfit` of the slow judge: a place is no reason to stop a search, so each has its own.
#[derive(Drop)]
pub enum Stop {
    /// All queries that may be were begun.
    Spent,
    /// The way down was longer than it can be.
    Lost,
    Memory(AllocError),
}

impl From<AllocError> for Stop {
    fn from(error: AllocError) -> Stop {
        Stop::Memory(error)
    }
}

impl<T: Drop> From<AllocFailed<T>> for Stop {
    fn from(failed: AllocFailed<T>) -> Stop {
        Stop::Memory(AllocError::from(failed))
    }
}

/// The bytes of the tree of what is asked, where there is one.
pub type Found = Result<Option<Vec<u8>>, Stop>;

/// What a goal comes to, and how many queries were counted.
#[derive(Drop)]
pub struct Outcome {
    pub found: Found,
    pub count: u32,
}

impl<'t> Walk<'t> {
    /// Whether the query was begun already on the way down.
    fn is_barred(&self, query: Query<'_>) -> bool {
        self.way.iter().any(|begun| begun.name == query.name && begun.set == *query.set)
    }

    /// Begins a query.
    fn begin(&mut self, query: Query<'_>) -> Result<(), Stop> {
        self.count = self.count.saturating_add(1);
        let set = query.set.clone()?;
        self.way.push(Begun {
            name: query.name,
            set,
        })?;
        Ok(())
    }

    /// Ends the query begun last.
    fn end(&mut self) {
        let _ = self.way.pop();
    }

    /// Asks a name from a set. `left` falls with each query of the way down.
    #[cycle(ask_try_all_try_one)]
    fn ask(&mut self, query: Query<'_>, left: u32) -> Found {
        if self.is_barred(query) {
            return Ok(None);
        }
        if self.count == self.budget {
            return Err(Stop::Spent);
        }
        let left = left.checked_sub(1).ok_or(Stop::Lost)?;
        self.begin(query)?;
        let found = self.try_all(query, left)?;
        self.end();
        Ok(found)
    }

    /// Tries the rules in force with this head by rising number, and then, where it may be, the goal's head again.
    // Loops, here and in `try_one`, as in `find`: no closure is shown callable where the recursion runs through it. An Option
    // inside a Result has no `?` of its own.
    #[cycle(ask_try_all_try_one)]
    fn try_all(&mut self, query: Query<'_>, left: u32) -> Found {
        let task = self.task;
        for number in query.set {
            if let Some(rule) = task.serving(*number, query) {
                let found = self.try_one(rule, query.set, left)?;
                if found.is_some() {
                    return Ok(found);
                }
            }
        }
        if task.again == Again::Never {
            return Ok(None);
        }
        let goal_again = Query {
            name: task.goal,
            ..query
        };
        let Some(more) = self.ask(goal_again, left)? else {
            return Ok(None);
        };
        let mut tree = vec![in self.heap; AGAIN]?;
        tree.extend_from_slice(&more)?;
        Ok(Some(tree))
    }

    /// Tries a rule: all its bodies in order.
    #[cycle(ask_try_all_try_one)]
    fn try_one(&mut self, rule: &Rule, set: &BTreeSet<u8>, left: u32) -> Found {
        let mut tree = vec![in self.heap; RULE, rule.number]?;
        for body in &rule.bodies {
            let query = Query {
                name: body.head,
                set: &with_rules(set, &body.bodies)?,
            };
            let Some(more) = self.ask(query, left)? else {
                return Ok(None);
            };
            tree.extend_from_slice(&more)?;
        }
        Ok(Some(tree))
    }
}

/// Asks the goal.
pub fn decide(heap: Global, task: Task<'_>, budget: u32) -> Outcome {
    let mut walk = Walk {
        heap,
        task,
        way: Vec::new(heap),
        count: 0,
        budget,
    };
    let found = walk.ask(task.first_query(), LONGEST_WAY);
    Outcome {
        found,
        count: walk.count,
    }
}
