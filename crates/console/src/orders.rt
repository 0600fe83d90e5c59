//! What a line orders.
ghost use Rattle.std.specs.Prelude.{◌≡◌, ℕ, List, MatchOption};
ghost use Rattle.console.specs.Orders.{ordered, order_read, with_rule, Ordered};

use prover::Restart;

/// An order with the rule or goal that it is about.
#[derive(Clone, Copy)]
pub enum Order<'l> {
    /// `+ rule`
    Add(&'l [u8]),
    /// `!`
    Seal,
    /// `> rule`
    Suppose(&'l [u8]),
    /// `<`
    Withdraw,
    /// `? goal`, or with restart `* goal`
    Ask(Restart, &'l [u8]),
}

/// The rule behind a mark and one blank.
fn rule_behind(rest: &[u8]) -> Option<&[u8]>
    ensures { MatchOption result ((f : List ℕ → Ordered) → with_rule f rest.now ≡ Rattle.console.specs.Orders.unknown) (λ rule. (f : List ℕ → Ordered) → with_rule f rest.now ≡ f rule.now) }
{
    rest.strip_prefix(b" ")
}

/// What a line orders; nothing for any other line.
pub fn read_order(line: &[u8]) -> Option<Order<'_>>
    ensures { order_read result ≡ ordered line.now }
{
    let (mark, rest) = line.split_first()?;
    match *mark as char {
        '!' => rest.is_empty().then_some(Order::Seal),
        '<' => rest.is_empty().then_some(Order::Withdraw),
        '+' => rule_behind(rest).map(Order::Add),
        '>' => rule_behind(rest).map(Order::Suppose),
        '?' => rule_behind(rest).map(|goal| Order::Ask(Restart::Forbidden, goal)),
        '*' => rule_behind(rest).map(|goal| Order::Ask(Restart::Allowed, goal)),
        _ => None,
    }
}
