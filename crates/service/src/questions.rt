//! The questions that a sealed book takes.
ghost use Rattle.std.specs.Prelude.{◌≡◌, ◌<◌, ◌≤◌, [], length, OnOk, OnErr, IfErr};
ghost use Rattle.law.specs.Calls.{ask as «asking», check as «checking»};
ghost use Rattle.law.specs.Limits.{tree_bytes};
ghost use Rattle.prover.specs.Limits.{most_queries};
ghost use Rattle.prover.specs.Settings.{allowed};
ghost use Rattle.service.specs.GoalQueries.{GoalSearched, GoalChecked};
ghost use Rattle.service.specs.Questions.{asked, checked};
ghost use Rattle.service.specs.Represents.{Does};
ghost use Rattle.service.specs.declared.fault.Fault.TheVariants as fault;
ghost use Rattle.service.specs.declared.state.State.TheVariants.{Shut};

use crate::fault::Fault;
use crate::limits::TREE_BYTES;
use crate::state::Sealed;
use book::{Book, RecordNumber};
use keys::Key;
use prover::{Outcome, QUERIES, Restart, Task, Verdict, search};
use reader::Written;

/// Searches for a success tree of the goal with this number, behind the rules in force.
fn search_goal(
    book: &Book,
    number: RecordNumber,
    restart: Restart,
    budget: u32,
    tree: &mut [u8],
) -> Outcome
    requires { budget ≤ most_queries }
    ensures { GoalSearched book.now number restart budget tree.old result tree.new }
{
    let task = Task {
        goal: book.head(number),
        restart,
        budget,
    };
    let set = book.supposing(book.in_force(), number);
    search(book, &task, set, tree)
}

/// Checks whether bytes are one whole success tree of the goal with this number, behind the rules in force.
fn check_goal(book: &Book, number: RecordNumber, restart: Restart, tree: &[u8]) -> Verdict
    ensures { GoalChecked book.now number restart tree.now result }
{
    let set = book.supposing(book.in_force(), number);
    prover::check(book, book.head(number), restart, set, tree)
}

/// Refuses a tree or buffer that has too many bytes.
fn check_size(tree: &[u8]) -> Result<(), Fault>
    ensures fits { OnOk result (length tree.now ≤ tree_bytes) }
    ensures long { OnErr result (tree_bytes < length tree.now) }
    ensures fault { IfErr result (λ e. e ≡ fault.TreeBytes) }
{
    if tree.len() > TREE_BYTES {
        return Err(Fault::TreeBytes);
    }
    Ok(())
}

impl<'a, K: Key + Written + Copy> Sealed<'a, K> {
    /// Asks whether a goal follows from the rules in force; with yes, a success tree stands first in the buffer.
    pub fn ask(
        &mut self,
        goal: &[u8],
        restart: Restart,
        budget: u32,
        tree: &mut [u8],
    ) -> Result<Outcome, Fault>
        ensures { Does (record { same = K.same; reading = K.reading }) («asking» goal.now budget tree.old (allowed restart)) (Shut self.old) (asked result) tree.new (Shut self.new) }
    {
        if !(1..=QUERIES).contains(&budget) {
            return Err(Fault::Budget);
        }
        check_size(tree)?;
        self.with_goal(
            goal,
            &mut |book, number| { search_goal(book, number, restart, budget, tree) },
        )
    }

    /// Tells whether bytes are one whole success tree of a goal.
    pub fn check(&mut self, goal: &[u8], restart: Restart, tree: &[u8]) -> Result<Verdict, Fault>
        ensures { Does (record { same = K.same; reading = K.reading }) («checking» goal.now tree.now (allowed restart)) (Shut self.old) (checked result) [] (Shut self.new) }
    {
        check_size(tree)?;
        self.with_goal(
            goal,
            &mut |book, number| { check_goal(book, number, restart, tree) },
        )
    }
}
