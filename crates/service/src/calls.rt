//! Calls and their answers as values.
ghost use Rattle.std.proofs.Math.Option.{some};
ghost use Rattle.std.specs.Prelude.{◌≡◌, Ok, MatchResult};
ghost use Rattle.service.specs.Calls.{room_of, answer_of};
ghost use Rattle.service.specs.Looking.{looked};
ghost use Rattle.service.specs.Questions.{asked, checked};
ghost use Rattle.service.specs.Represents.{told};
ghost use Rattle.service.specs.declared.calls.Answer.TheVariants as answer;

use crate::fault::Fault;
use charts::Holding;
use prover::{Outcome, Restart, Verdict};

/// A call with what it is handed. Ask is handed the next `room` bytes of the trees, or what is left of them; look names its
/// chart by its place among the charts.
#[derive(Clone, Copy)]
pub enum Call<'c> {
    Add(&'c [u8]),
    Seal,
    Reopen,
    Suppose(&'c [u8]),
    Withdraw,
    Ask {
        goal: &'c [u8],
        restart: Restart,
        budget: u32,
        room: usize,
    },
    Check {
        goal: &'c [u8],
        restart: Restart,
        tree: &'c [u8],
    },
    Look {
        goal: &'c [u8],
        chart: usize,
        release: usize,
    },
}

impl Call<'_> {
    /// How many bytes of the trees the call is to be handed.
    pub fn room(&self) -> usize
        ensures { result ≡ room_of self.now }
    {
        match self {
            Call::Ask { room, .. } => *room,
            _ => 0,
        }
    }
}

/// What a call answered, or that the state did not take it.
// The cases of `Outcome`, `Verdict` and `Holding` stand flat, as a list of answers is read.
#[derive(Clone, Copy, PartialEq, Debug)]
pub enum Answer {
    Done,
    Refused(Fault),
    Yes { count: u32, length: usize },
    No { count: u32 },
    Spent { count: u32 },
    Long { count: u32, length: usize },
    Accepted,
    Rejected { place: usize },
    Told { rules: bool, goal: bool },
    NotTaken,
}

/// A call that changes what is in force is done.
impl From<()> for Answer {
    ghost from_gives = { λ u a. answer_of a ≡ some (told (Ok u)) };

    fn from(_done: ()) -> Answer {
        Answer::Done
    }
}

/// The answer of ask.
impl From<Outcome> for Answer {
    ghost from_gives = { λ o a. answer_of a ≡ some (asked (Ok o)) };

    fn from(outcome: Outcome) -> Answer {
        match outcome {
            Outcome::Yes { count, len } => Answer::Yes { count, length: len },
            Outcome::No { count } => Answer::No { count },
            Outcome::Spent { count } => Answer::Spent { count },
            Outcome::Long { count, len } => Answer::Long { count, length: len },
        }
    }
}

/// The answer of check.
impl From<Verdict> for Answer {
    ghost from_gives = { λ v a. answer_of a ≡ some (checked (Ok v)) };

    fn from(verdict: Verdict) -> Answer {
        match verdict {
            Verdict::Accepted => Answer::Accepted,
            Verdict::Rejected { place } => Answer::Rejected { place },
        }
    }
}

/// The answer of look.
impl From<Holding> for Answer {
    ghost from_gives = { λ h a. answer_of a ≡ some (looked (Ok h)) };

    fn from(holding: Holding) -> Answer {
        let Holding { rules, goal } = holding;
        Answer::Told { rules, goal }
    }
}

/// The answer of a call that may be refused.
impl<T: Into<Answer>> From<Result<T, Fault>> for Answer {
    ghost from_gives = { λ res a. MatchResult res (λ x. T.converts x a) (λ f. a ≡ answer.Refused f) };

    fn from(res: Result<T, Fault>) -> Answer {
        res.map_or_else(Answer::Refused, T::into)
    }
}
