//! The deepest trees and the longest way down.
use crate::answer::Answer;
use crate::tally::Tally;
use crate::trial::{BookTrial, DraftTrial, Question, no_names};
use prover::Restart;
use reader::Name;
use std::alloc::{AllocError, Global};

/// The bytes of the longest tree that a check takes.
const LONGEST: usize = 16_384;

/// Bytes that are all this one, with a rule's two bytes at the end.
fn ending_by_rule(heap: Global, byte: u8, rule: u8) -> Result<Vec<u8>, AllocError> {
    let mut tree = vec![in heap; byte; LONGEST - 2]?;
    tree.extend_from_slice(&[1, rule])?;
    Ok(tree)
}

/// 16,382 restarts of a goal, one in the other, and then its fact.
fn restart_deep(heap: Global) -> Result<Tally, AllocError> {
    let mut slots = no_names::<1>();
    let mut trial = BookTrial::new(heap, &mut slots, &[b"a"]);
    let tree = ending_by_rule(heap, 2, 0)?;
    trial.expect_check(b"a", Restart::Allowed, &tree, Answer::Accepted);
    let refused = Answer::Rejected { place: 0 };
    trial.expect_check(b"a", Restart::Forbidden, &tree, refused);
    let endless = vec![in heap; 2; LONGEST]?;
    let cut_off = Answer::Rejected { place: LONGEST };
    trial.expect_check(b"a", Restart::Allowed, &endless, cut_off);
    Ok(trial.tally)
}

/// 8,191 uses of `a if a`, one in the other, and then the fact `a`: the goal `a if (a if a), a` has the records 0 for the inner body,
/// 1 for `a if a` and 2 for `a`.
fn apply_deep(heap: Global) -> Result<Tally, AllocError> {
    let mut slots = no_names::<1>();
    let mut trial = BookTrial::new(heap, &mut slots, &[]);
    let goal = b"a if (a if a), a";
    let tree = ending_by_rule(heap, 1, 2)?;
    trial.expect_check(goal, Restart::Forbidden, &tree, Answer::Accepted);
    let endless = vec![in heap; 1; LONGEST]?;
    let cut_off = Answer::Rejected { place: LONGEST };
    trial.expect_check(goal, Restart::Forbidden, &endless, cut_off);
    Ok(trial.tally)
}

/// Adds `n0 if n1`, `n1 if n2` and so on to `n30 if n31`: 62 records.
fn add_chain(trial: &mut DraftTrial<'_, Name>) -> Result<(), AllocError> {
    for name in 0..31u8 {
        let next = name + 1;
        let rule = format!(in trial.heap; "n{name} if n{next}")?;
        trial.expect_add(rule.as_bytes(), Answer::Done);
    }
    Ok(())
}

/// A rule that leads from `n31` back to `n0`, each time with one record more in force:
/// `n31 if (n0 if (n31 if (n0 if .. (n0 if last))))`, with `turns` times `n31 if (n0 if`.
fn turning(heap: Global, turns: usize, last: &str) -> Result<String, AllocError> {
    let inner = turns.saturating_sub(1);
    let opened = "(n31 if (n0 if ".repeat(heap, inner)?;
    let closed = "))".repeat(heap, inner)?;
    format!(in heap; "n31 if (n0 if {opened}{last}{closed})")
}

/// Adds four rules of seven turns, 15 records each, and one of two turns, 5 records, that ends in the fact `n31`.
fn add_turns(trial: &mut DraftTrial<'_, Name>) -> Result<(), AllocError> {
    let rule = turning(trial.heap, 7, "x")?;
    for _ in 0..4 {
        trial.expect_add(rule.as_bytes(), Answer::Done);
    }
    let rule = turning(trial.heap, 2, "n31")?;
    trial.expect_add(rule.as_bytes(), Answer::Done);
    Ok(())
}

/// The records that `n31` uses on the way down: each rule of seven turns from the outside inward, then the one of two, then its fact.
fn last_numbers(heap: Global) -> Result<Vec<u8>, AllocError> {
    let mut numbers = Vec::new(heap);
    for rule in 0..4u8 {
        for turn in 0..7u8 {
            numbers.push(62 + 15 * rule + 14 - 2 * turn)?;
        }
    }
    numbers.extend_from_slice(&[126, 124, 122])?;
    Ok(numbers)
}

/// The part of the tree that goes from `n0` to `n31`: the rules of the chain are the records 1, 3, 5 and so on to 61.
fn add_way_through(tree: &mut Vec<u8>) -> Result<(), AllocError> {
    for name in 0..31u8 {
        tree.extend_from_slice(&[1, 2 * name + 1])?;
    }
    Ok(())
}

/// The tree of `n0`: 31 times down the chain, and by these records back.
fn way_down(heap: Global) -> Result<Vec<u8>, AllocError> {
    let mut tree = Vec::new(heap);
    for number in last_numbers(heap)? {
        add_way_through(&mut tree)?;
        tree.extend_from_slice(&[1, number])?;
    }
    Ok(tree)
}

/// Asks `n0`, and compares the answer and the tree; 992 queries, each below the one before.
fn expect_way_down(trial: &mut BookTrial<'_, Name>, restart: Restart) -> Result<(), AllocError> {
    let wanted = way_down(trial.heap)?;
    let question = Question {
        goal: b"n0",
        restart,
        budget: 992,
        room: 1_984,
    };
    let found = Answer::Yes {
        count: 992,
        len: 1_984,
    };
    let tree = trial.expect_answer(&question, found)?;
    trial.tally.expect(tree.as_slice(), wanted.as_slice());
    let one_less = Question {
        budget: 991,
        ..question
    };
    trial.expect_answer(&one_less, Answer::Spent { count: 991 })?;
    trial.expect_check(b"n0", restart, &wanted, Answer::Accepted);
    Ok(())
}

/// 32 names asked from each of 31 sets, each set larger than the one before: the goal's own record is the 128th.
fn search_deep(heap: Global) -> Result<Tally, AllocError> {
    let mut slots = no_names::<33>();
    let mut trial = DraftTrial::new(heap, &mut slots);
    add_chain(&mut trial)?;
    add_turns(&mut trial)?;
    let mut trial = trial.seal();
    expect_way_down(&mut trial, Restart::Forbidden)?;
    expect_way_down(&mut trial, Restart::Allowed)?;
    Ok(trial.tally)
}

/// All of it.
pub fn deep(heap: Global) -> Result<Tally, AllocError> {
    let mut tally = restart_deep(heap)?;
    tally += apply_deep(heap)?;
    tally += search_deep(heap)?;
    Ok(tally)
}
