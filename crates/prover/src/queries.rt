//! The search.
ghost use Rattle.std.specs.Prelude.{◌≡◌, ◌+◌, ◌-◌, ◌*◌, ◌<◌, ◌≤◌, [], ◌∷◌, ◌++◌, length, take};
ghost use Rattle.book.specs.Books.{records_of};
ghost use Rattle.prover.specs.Settled.{zeros, Settled, Shown};
ghost use Rattle.prover.specs.Told.{setting_of, Kept, Told, Writes, NameAsked, RulesTried, BodiesAsked, BodyAsked};

use crate::in_force::{InForce, Trial};
use crate::outcome::Outcome;
use crate::progress::{Progress, Search, Spent};
use crate::step::Step;
use crate::task::{Restart, Task};
use book::{Book, RecordNumber, RecordSet};
use keys::KeyNumber;

/// Searches for a success tree of the task's goal from this set, and leaves its bytes in the buffer, with zeros behind
/// them; where there is no tree, or it is longer than the buffer, the buffer is all zeros.
pub fn search(book: &Book, task: &Task, set: RecordSet, out: &mut [u8]) -> Outcome
    ensures settled { Settled book.now task.now set.bits out.new result }
    ensures tree { Shown book.now task.now set.bits out.new result }
{
    let mut force = InForce { set, begun: 0 };
    let mut search = Search {
        book,
        goal: task.goal,
        restart: task.restart,
        progress: Progress {
            count: 0,
            budget: task.budget,
            len: 0,
        },
        out,
    };
    let found = search.query(&mut force, task.goal);
    let Progress { count, len, .. } = search.progress;
    match found {
        Ok(true) if len <= out.len() => {
            clear(out, len);
            Outcome::Yes { count, len }
        }
        Ok(true) => {
            clear(out, 0);
            Outcome::Long { count, len }
        }
        Ok(false) => {
            clear(out, 0);
            Outcome::No { count }
        }
        Err(Spent) => {
            clear(out, 0);
            Outcome::Spent { count }
        }
    }
}

/// Writes zeros from a place on.
fn clear(out: &mut [u8], from: usize)
    requires { from ≤ length out.old }
    ensures { out.new ≡ take from out.old ++ zeros (length out.old - from) }
{
    out[from..].fill(0);
}

// `force` is lent beside the search, as the guard lends it on: so each step says that it is back.
// Room for a step is no field of `Progress`: it is false once the step's bytes are written.
impl Search<'_> {
    /// Writes one more byte of the tree, where there is room.
    fn push(&mut self, byte: u8)
        requires { self.old.progress.len < 2 * self.old.progress.count }
        ensures kept { Kept self.old self.new }
        ensures same { self.new.progress.count ≡ self.old.progress.count }
        ensures wrote { Writes self.old (byte ∷ []) self.new }
    {
        let len = self.progress.len;
        if len < self.out.len() {
            // By index: of a byte that is written through `get_mut` nothing can be proved.
            self.out[len] = byte;
        }
        // The length goes on past the buffer's end, as `Long` tells it.
        self.progress.len = len + 1;
    }

    /// Asks a name from the set in force.
    #[cycle(queries)]
    fn query(&mut self, force: &mut InForce, name: KeyNumber) -> Result<bool, Spent>
        ensures kept { Kept self.old self.new }
        ensures back { force.new ≡ force.old }
        ensures told { Told (NameAsked (setting_of self.old) force.old name.index) [] self.old self.new result }
    {
        if force.has_begun(name) {
            return Ok(false);
        }
        if self.progress.count == self.progress.budget {
            return Err(Spent);
        }
        self.progress.count += 1;
        let begun = force.begun;
        force.begin(name);
        let found = self.try_rules(force, name);
        // By hand, with no guard: only the mask changed, and the set is untouched.
        force.begun = begun;
        found
    }

    /// Tries the records in force with this head, by rising number, and then the restart.
    #[cycle(queries)]
    fn try_rules(&mut self, force: &mut InForce, name: KeyNumber) -> Result<bool, Spent>
        requires { self.old.progress.len + 2 ≤ 2 * self.old.progress.count }
        ensures kept { Kept self.old self.new }
        ensures back { force.new ≡ force.old }
        ensures told { Told (RulesTried (setting_of self.old) force.old name.index) [] self.old self.new result }
    {
        let set = force.set;
        for number in set.common(self.book.with_head(name)) {
            if self.try_rule(force, set, number)? {
                return Ok(true);
            }
        }
        match self.restart {
            Restart::Allowed => self.try_restart(force),
            Restart::Forbidden => Ok(false),
        }
    }

    /// Asks the goal's head from the set in force.
    #[cycle(queries)]
    fn try_restart(&mut self, force: &mut InForce) -> Result<bool, Spent>
        requires { self.old.progress.len + 2 ≤ 2 * self.old.progress.count }
        ensures kept { Kept self.old self.new }
        ensures back { force.new ≡ force.old }
        ensures told { Told (NameAsked (setting_of self.old) force.old self.old.goal.index) (2 ∷ []) self.old self.new result }
    {
        let mark = self.progress.len;
        self.push(Step::Restart as u8);
        if self.query(force, self.goal)? {
            return Ok(true);
        }
        self.progress.len = mark;
        Ok(false)
    }

    /// Tries one record: all its bodies in order.
    // The set in force is also passed by value, so that it is read once for all of a query's rules.
    #[cycle(queries)]
    fn try_rule(
        &mut self,
        force: &mut InForce,
        set: RecordSet,
        number: RecordNumber,
    ) -> Result<bool, Spent>
        requires set { set ≡ force.old.set }
        requires used { number.index < length (records_of self.old.book.now) }
        requires room { self.old.progress.len + 2 ≤ 2 * self.old.progress.count }
        ensures kept { Kept self.old self.new }
        ensures back { force.new ≡ force.old }
        ensures told { Told (BodiesAsked (setting_of self.old) force.old number.index) (1 ∷ number.index ∷ []) self.old self.new result }
    {
        let mark = self.progress.len;
        self.push(Step::Rule as u8);
        self.push(number.index);
        let book = self.book;
        for body in book.bodies(number).as_slice() {
            if !self.try_body(force, set, *body)? {
                self.progress.len = mark;
                return Ok(false);
            }
        }
        Ok(true)
    }

    /// Asks a body's head with its own bodies put in force; where these are there already, nothing has to be put back.
    #[cycle(queries)]
    fn try_body(
        &mut self,
        force: &mut InForce,
        set: RecordSet,
        body: RecordNumber,
    ) -> Result<bool, Spent>
        requires set { set ≡ force.old.set }
        requires used { body.index < length (records_of self.old.book.now) }
        ensures kept { Kept self.old self.new }
        ensures back { force.new ≡ force.old }
        ensures told { Told (BodyAsked (setting_of self.old) force.old body.index) [] self.old self.new result }
    {
        let head = self.book.head(body);
        let wider = self.book.supposing(set, body);
        if wider.equals(set) {
            return self.query(force, head);
        }
        let saved = InForce {
            set,
            begun: force.begun,
        };
        // A literal: a constructor would have to say that it holds the same reference, and be longer.
        let trial = Trial { force, saved };
        *trial.force = InForce {
            set: wider,
            begun: 0,
        };
        self.query(trial.force, head)
    }
}
