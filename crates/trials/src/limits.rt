//! Budgets and tree buffers at and outside their limits, over one book.
use crate::answer::Answer;
use crate::tally::Tally;
use crate::trial::{BookTrial, Question, no_names};
use prover::Restart;
use std::alloc::{AllocError, Global};

/// From these rules `a` takes two queries without restart, and three with it.
const RULES: &[&[u8]] = &[b"a if (b if a)"];

const TREE: &[u8] = &[1, 2, 2, 1, 0];

/// The question that the cases change in one point.
const QUESTION: Question<'static> = Question {
    goal: b"a",
    restart: Restart::Allowed,
    budget: 1_000,
    room: 16,
};

const FAILS: Answer = Answer::No { count: 2 };

const SUCCEEDS: Answer = Answer::Yes { count: 3, len: 5 };

const LONG: Answer = Answer::Long { count: 3, len: 5 };

const OUTSIDE: Answer = Answer::Refused {
    number: 32,
    place: 0,
};

const TOO_LARGE: Answer = Answer::Refused {
    number: 33,
    place: 0,
};

/// A budget, and what the goal comes to with it, without restart and with it.
const BUDGETS: &[(u32, Answer, Answer)] = &[
    (0, OUTSIDE, OUTSIDE),
    (1, Answer::Spent { count: 1 }, Answer::Spent { count: 1 }),
    (2, FAILS, Answer::Spent { count: 2 }),
    (3, FAILS, SUCCEEDS),
    (1_000_000, FAILS, SUCCEEDS),
    (1_000_001, OUTSIDE, OUTSIDE),
    (u32::MAX, OUTSIDE, OUTSIDE),
];

/// A buffer's length, and what the goal comes to with it.
const ROOMS: &[(usize, Answer)] = &[
    (0, LONG),
    (1, LONG),
    (4, LONG),
    (5, SUCCEEDS),
    (6, SUCCEEDS),
    (16_384, SUCCEEDS),
    (16_385, TOO_LARGE),
];

/// Every budget.
pub fn budgets(heap: Global) -> Result<Tally, AllocError> {
    let mut slots = no_names::<2>();
    let mut trial = BookTrial::new(heap, &mut slots, RULES);
    for (budget, forbidden, allowed) in BUDGETS {
        let question = Question {
            budget: *budget,
            ..QUESTION
        };
        let without = Question {
            restart: Restart::Forbidden,
            ..question
        };
        trial.expect_ask(&without, *forbidden, TREE)?;
        trial.expect_ask(&question, *allowed, TREE)?;
    }
    // A budget is refused before the buffer, and before the goal is read.
    let unread = Question {
        goal: b"a if",
        budget: 0,
        room: 16_385,
        ..QUESTION
    };
    trial.expect_ask(&unread, OUTSIDE, &[])?;
    Ok(trial.tally)
}

/// Every length.
pub fn buffers(heap: Global) -> Result<Tally, AllocError> {
    let mut slots = no_names::<2>();
    let mut trial = BookTrial::new(heap, &mut slots, RULES);
    for (room, answer) in ROOMS {
        let question = Question {
            room: *room,
            ..QUESTION
        };
        trial.expect_ask(&question, *answer, TREE)?;
    }
    // A buffer that is refused is refused before the goal is read.
    let unread = Question {
        goal: b"a if",
        room: 16_385,
        ..QUESTION
    };
    let bytes = trial.expect_answer(&unread, TOO_LARGE)?;
    trial.tally.expect_buffer(&bytes, TOO_LARGE, &[]);
    trial.expect_check(b"a if", Restart::Allowed, &bytes, TOO_LARGE);
    // A tree in the longest bytes that a check takes has its first byte too many behind it.
    let longest = Question {
        room: 16_384,
        ..QUESTION
    };
    let bytes = trial.expect_answer(&longest, SUCCEEDS)?;
    trial.expect_check(
        b"a",
        Restart::Allowed,
        &bytes,
        Answer::Rejected { place: 5 },
    );
    Ok(trial.tally)
}
