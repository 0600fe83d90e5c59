//! Small books whose answers, counts and trees were worked out by hand.
use crate::answer::Answer;
use crate::tally::Tally;
use crate::trial::{BookTrial, Question, no_names};
use prover::Restart;
use reader::Name;
use std::alloc::{AllocError, Global};

/// A question to a book, and what it comes to, without restart and with it. Where both find a tree, it is the same one.
#[derive(Clone, Copy)]
pub struct Example<'e> {
    pub rules: &'e [&'e [u8]],
    pub goal: &'e [u8],
    pub forbidden: Answer,
    pub allowed: Answer,
    pub tree: &'e [u8],
}

/// Restart goes on from the present set.
pub const RESTART: Example<'static> = Example {
    rules: &[b"a if (b if a)"],
    goal: b"a",
    forbidden: Answer::No { count: 2 },
    allowed: Answer::Yes { count: 3, len: 5 },
    tree: &[1, 2, 2, 1, 0],
};

/// Restart also where the name heads a rule.
pub const RESTART_AT_HEAD: Example<'static> = Example {
    rules: &[b"b if b", b"a if (b if a)"],
    goal: b"a",
    forbidden: Answer::No { count: 2 },
    allowed: Answer::Yes { count: 3, len: 5 },
    tree: &[1, 4, 2, 1, 2],
};

/// The same name from a larger set is another query.
pub const LARGER_SET: Example<'static> = Example {
    rules: &[b"n if (n if a)"],
    goal: b"n if (n if a)",
    forbidden: Answer::Yes { count: 3, len: 6 },
    allowed: Answer::Yes { count: 3, len: 6 },
    tree: &[1, 2, 1, 4, 1, 0],
};

/// The goal's bodies are in force.
pub const GOAL_WITH_BODIES: Example<'static> = Example {
    rules: &[],
    goal: b"a if b, a",
    forbidden: Answer::Yes { count: 1, len: 2 },
    allowed: Answer::Yes { count: 1, len: 2 },
    tree: &[1, 1],
};

const EXAMPLES: &[Example<'static>] = &[
    // A name that no rule has as its head.
    Example {
        rules: &[],
        goal: b"q",
        forbidden: Answer::No { count: 1 },
        allowed: Answer::No { count: 1 },
        tree: &[],
    },
    RESTART,
    // A barred query is not counted.
    Example {
        rules: &[b"q if q"],
        goal: b"q",
        forbidden: Answer::No { count: 1 },
        allowed: Answer::No { count: 1 },
        tree: &[],
    },
    RESTART_AT_HEAD,
    LARGER_SET,
    // What one body supposes is not there for the next.
    Example {
        rules: &[b"c if (a if a), a"],
        goal: b"c",
        forbidden: Answer::No { count: 3 },
        allowed: Answer::No { count: 3 },
        tree: &[],
    },
    GOAL_WITH_BODIES,
];

impl Example<'_> {
    /// Asks the goal of a book of the rules, without restart and with it.
    pub fn expect(&self, trial: &mut BookTrial<'_, Name>) -> Result<(), AllocError> {
        let forbidden = Question::ample(self.goal, Restart::Forbidden);
        trial.expect_ask(&forbidden, self.forbidden, self.tree)?;
        let allowed = Question::ample(self.goal, Restart::Allowed);
        trial.expect_ask(&allowed, self.allowed, self.tree)
    }

    /// The example over a book of its own.
    fn carry_out(&self, heap: Global) -> Result<Tally, AllocError> {
        let mut slots = no_names::<8>();
        let mut trial = BookTrial::new(heap, &mut slots, self.rules);
        self.expect(&mut trial)?;
        Ok(trial.tally)
    }
}

/// Every example, over a book of its own.
// The sum is taken as in `trees`: four lines alike are not worth a closure.
pub fn examples(heap: Global) -> Result<Tally, AllocError> {
    let mut tally = Tally::new();
    for example in EXAMPLES {
        tally += example.carry_out(heap)?;
    }
    Ok(tally)
}
