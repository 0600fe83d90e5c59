//! What a search is asked.
ghost use Rattle.std.specs.Prelude.{◌≤◌};
ghost use Rattle.prover.specs.Limits.{most_queries};

use keys::KeyNumber;

/// A search may count so many queries at the most.
pub const QUERIES: u32 = 1_000_000;

/// Whether the goal's head may be asked again where all rules have failed.
#[derive(Clone, Copy, PartialEq, Debug)]
pub enum Restart {
    Allowed,
    Forbidden,
}

/// What stays the same through a search: the goal's head, whether restart is allowed, and the budget of queries.
#[derive(Clone, Copy)]
pub struct Task {
    pub goal: KeyNumber,
    pub restart: Restart,
    pub budget: u32,
    ghost bounded: { budget ≤ most_queries },
}
