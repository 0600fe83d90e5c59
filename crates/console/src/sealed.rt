//! The console over a sealed book.
ghost use Rattle.std.specs.Prelude.{◌≡◌, ℕ, List, [], length, OnErr, Ok as Found};
ghost use Rattle.service.specs.declared.state.State.TheVariants.{Open, Shut};
ghost use Rattle.console.specs.Answers.{Prints as «Answers», Asks, line_of};
ghost use Rattle.prover.specs.Settings.{allowed};
ghost use Rattle.service.specs.Questions.{asked};
ghost use Rattle.console.specs.Console.{shown};
ghost use Rattle.console.specs.Limits.{room};
ghost use Rattle.console.specs.Orders.{ordered, order_read};
ghost use Rattle.console.specs.Texts.{text, Keeps};

use crate::buffer::{Line, Printed};
use crate::limits::{BUDGET, ROOM};
use crate::lines::{bad, counted, ok, yes};
use crate::orders::{Order, read_order};
use crate::refusals::Refused;
use prover::{Outcome, Restart};
use reader::Name;
use service::Sealed;

/// The line that is printed for a line over a sealed book.
pub fn answer_sealed(sealed: &mut Sealed<'_, Name>, line: &Line) -> Printed
    ensures { (whole : List ℕ) → Keeps line.now whole → «Answers» (ordered whole) (Shut sealed.old) (text result) (Shut sealed.new) }
{
    let mut printed = Printed::new();
    if let Err(refused) = obey_sealed(sealed, read_order(line.as_bytes()), &mut printed) {
        bad(refused, &mut printed);
    }
    printed
}

/// Carries out an order over a sealed book, and prints what it comes to.
// The printed line is lent: in a `Result` its eight kibibytes would be copied at each `?`.
fn obey_sealed(
    sealed: &mut Sealed<'_, Name>,
    order: Option<Order<'_>>,
    printed: &mut Printed,
) -> Result<(), Refused>
    requires { text printed.old ≡ [] }
    ensures answers { «Answers» (order_read order.entry) (Shut sealed.old) (line_of printed.new result) (Shut sealed.new) }
    ensures bare { OnErr result (text printed.new ≡ []) }
{
    match order.ok_or(Refused::Unknown)? {
        Order::Suppose(rule) => {
            sealed.suppose(rule)?;
            ok(printed);
        }
        Order::Withdraw => {
            sealed.withdraw()?;
            ok(printed);
        }
        Order::Ask(restart, goal) => ask(sealed, goal, restart, printed)?,
        _ => return Err(Refused::NotTaken),
    }
    Ok(())
}

/// Asks a goal, and prints the answer.
fn ask(
    sealed: &mut Sealed<'_, Name>,
    goal: &[u8],
    restart: Restart,
    printed: &mut Printed,
) -> Result<(), Refused>
    requires { text printed.old ≡ [] }
    ensures answers { Asks goal.now (allowed restart) (Shut sealed.old) (line_of printed.new result) (Shut sealed.new) }
    ensures bare { OnErr result (text printed.new ≡ []) }
{
    let mut tree = [0u8; ROOM];
    let outcome = sealed.ask(goal, restart, BUDGET, &mut tree)?;
    found(outcome, &tree, printed);
    Ok(())
}

/// Prints what ask came to; with yes, its tree stands first in the buffer.
fn found(outcome: Outcome, tree: &[u8], printed: &mut Printed)
    requires bare { text printed.old ≡ [] }
    requires room { length tree.now ≡ room }
    ensures { text printed.new ≡ shown (asked (Found outcome)) tree.now }
{
    match outcome {
        Outcome::Yes { count, len } => yes(count, &tree[..len.min(tree.len())], printed),
        Outcome::No { count } => counted(b"no", count, printed),
        Outcome::Spent { count } => counted(b"spent", count, printed),
        Outcome::Long { count, len: _ } => counted(b"long", count, printed),
    }
}
