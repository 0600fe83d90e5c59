//! The console over a draft.
ghost use Rattle.std.specs.Prelude.{◌≡◌, ℕ, List};
ghost use Rattle.service.specs.declared.state.State.TheVariants.{Open, Shut};
ghost use Rattle.console.specs.Answers.{Prints as «Answers», DraftAnswers, change_line};
ghost use Rattle.console.specs.Orders.{ordered, order_read, add as adding, seal as «sealing»};
ghost use Rattle.console.specs.Texts.{text, Keeps};

use crate::buffer::{Line, Printed};
use crate::lines::{done, ok};
use crate::orders::{Order, read_order};
use crate::refusals::Refused;
use reader::Name;
use service::{Draft, Sealed};

/// The line that is printed for a line over a draft; nothing for the order to seal it.
pub fn answer_draft(draft: &mut Draft<'_, Name>, line: &Line) -> Option<Printed>
    ensures { (whole : List ℕ) → Keeps line.now whole → DraftAnswers text (ordered whole) draft.old result draft.new }
{
    Some(done(obey_draft(draft, read_order(line.as_bytes()))?))
}

/// Carries out an order over a draft, but for the seal.
fn obey_draft(draft: &mut Draft<'_, Name>, order: Option<Order<'_>>) -> Option<Result<(), Refused>>
    ensures { DraftAnswers change_line (order_read order.entry) draft.old result draft.new }
{
    // No `?`: nothing is printed for the seal, so a refusal lies in an option.
    let Some(order) = order else {
        return Some(Err(Refused::Unknown));
    };
    match order {
        Order::Add(rule) => Some(add(draft, rule)),
        Order::Seal => None,
        _ => Some(Err(Refused::NotTaken)),
    }
}

/// Adds a rule.
fn add(draft: &mut Draft<'_, Name>, rule: &[u8]) -> Result<(), Refused>
    ensures { «Answers» (adding rule.now) (Open draft.old) (change_line result) (Open draft.new) }
{
    Ok(draft.add(rule)?)
}

/// A sealed book, and the line that is printed for its seal.
#[derive(Drop)]
pub struct Seal<'a> {
    pub sealed: Sealed<'a, Name>,
    pub printed: Printed,
}

/// Seals a draft.
pub fn seal_draft<'a>(draft: Draft<'a, Name>) -> Seal<'a>
    ensures { «Answers» «sealing» (Open draft.entry) (text result.printed) (Shut result.sealed) }
{
    let mut printed = Printed::new();
    ok(&mut printed);
    Seal {
        sealed: draft.seal(),
        printed,
    }
}
