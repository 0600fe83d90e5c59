//! Suppositions: how many stand, and what is left behind when they are withdrawn.
use crate::answer::Answer;
use crate::tally::Tally;
use crate::trial::{BookTrial, Question, no_names};
use prover::Restart;
use reader::Name;
use std::alloc::{AllocError, Global};

/// So many may stand.
const MOST: u8 = 32;
/// How often they are put in force and withdrawn again.
const ROUNDS: u32 = 1_000;

const ONE_TOO_MANY: Answer = Answer::Refused {
    number: 30,
    place: 0,
};

const NONE_STANDING: Answer = Answer::Refused {
    number: 31,
    place: 0,
};

/// The `step`th supposition: `s0`, then `s1 if s0`, `s2 if s1` and so on.
fn supposition(heap: Global, step: u8) -> Result<String, AllocError> {
    match step.checked_sub(1) {
        Some(before) => format!(in heap; "s{step} if s{before}"),
        None => String::from_str(heap, "s0"),
    }
}

/// The tree of `s31`: `s0` is record 0, and each later supposition ends two records after the one before.
fn whole_tree(heap: Global) -> Result<Vec<u8>, AllocError> {
    let mut tree = Vec::new(heap);
    for step in (0..MOST).rev() {
        tree.extend_from_slice(&[1, 2 * step])?;
    }
    Ok(tree)
}

/// Puts the 32 in force.
fn fill(trial: &mut BookTrial<'_, Name>) -> Result<(), AllocError> {
    for step in 0..MOST {
        let rule = supposition(trial.heap, step)?;
        trial.expect_suppose(rule.as_bytes(), Answer::Done);
    }
    Ok(())
}

/// Withdraws the 32.
fn empty(trial: &mut BookTrial<'_, Name>) {
    for _ in 0..MOST {
        trial.expect_withdraw(Answer::Done);
    }
}

/// While the 32 stand, `s31` follows by all of them, and no other rule is taken, however it is written.
fn expect_full(trial: &mut BookTrial<'_, Name>) -> Result<(), AllocError> {
    let tree = whole_tree(trial.heap)?;
    let answer = Answer::Yes { count: 32, len: 64 };
    let question = Question::ample(b"s31", Restart::Forbidden);
    trial.expect_ask(&question, answer, &tree)?;
    trial.expect_suppose(b"s0", ONE_TOO_MANY);
    trial.expect_suppose(b"s0 if", ONE_TOO_MANY);
    Ok(())
}

/// While none stands, `s31` does not follow, and nothing can be withdrawn.
fn expect_empty(trial: &mut BookTrial<'_, Name>) -> Result<(), AllocError> {
    let question = Question::ample(b"s31", Restart::Allowed);
    trial.expect_ask(&question, Answer::No { count: 1 }, &[])?;
    trial.expect_withdraw(NONE_STANDING);
    Ok(())
}

fn fill_and_empty(heap: Global) -> Result<Tally, AllocError> {
    let mut slots = no_names::<32>();
    let mut trial = BookTrial::new(heap, &mut slots, &[]);
    expect_empty(&mut trial)?;
    for _ in 0..ROUNDS {
        fill(&mut trial)?;
        expect_full(&mut trial)?;
        empty(&mut trial);
        expect_empty(&mut trial)?;
    }
    Ok(trial.tally)
}

/// Reopening withdraws all.
fn fill_and_reopen(heap: Global) -> Result<Tally, AllocError> {
    let mut slots = no_names::<32>();
    let mut trial = BookTrial::new(heap, &mut slots, &[]);
    fill(&mut trial)?;
    let mut trial = trial.reopen().seal();
    expect_empty(&mut trial)?;
    fill(&mut trial)?;
    expect_full(&mut trial)?;
    Ok(trial.tally)
}

/// Over `a` and three slots: `b` and `c` have the numbers that are left, until they are withdrawn; then `d` and `e` have them.
fn share_numbers(trial: &mut BookTrial<'_, Name>) -> Result<(), AllocError> {
    trial.expect_suppose(b"b if c", Answer::Done);
    trial.expect_suppose(b"d", Answer::no_number(0));
    trial.expect_suppose(b"a if c, (b if d)", Answer::no_number(14));
    trial.expect_withdraw(Answer::Done);
    trial.expect_suppose(b"d if e", Answer::Done);
    trial.expect_suppose(b"b", Answer::no_number(0));
    let question = Question {
        goal: b"d if b",
        restart: Restart::Allowed,
        budget: 1,
        room: 0,
    };
    trial.expect_answer(&question, Answer::no_number(5))?;
    trial.expect_withdraw(Answer::Done);
    Ok(())
}

/// Over the same book: records too have their numbers again when they are supposed anew.
fn share_records(trial: &mut BookTrial<'_, Name>) -> Result<(), AllocError> {
    let question = Question::ample(b"b", Restart::Forbidden);
    let found = Answer::Yes { count: 2, len: 4 };
    trial.expect_suppose(b"b if c", Answer::Done);
    trial.expect_suppose(b"c", Answer::Done);
    trial.expect_ask(&question, found, &[1, 2, 1, 3])?;
    trial.expect_withdraw(Answer::Done);
    trial.expect_ask(&question, Answer::No { count: 2 }, &[])?;
    trial.expect_suppose(b"c", Answer::Done);
    trial.expect_ask(&question, found, &[1, 2, 1, 3])?;
    trial.expect_withdraw(Answer::Done);
    trial.expect_withdraw(Answer::Done);
    Ok(())
}

/// Rules that are added after the suppositions are gone take over their numbers.
fn add_after_reopening(heap: Global) -> Result<Tally, AllocError> {
    let mut slots = no_names::<3>();
    let mut trial = BookTrial::new(heap, &mut slots, &[b"a"]);
    for _ in 0..3 {
        share_numbers(&mut trial)?;
        share_records(&mut trial)?;
    }
    trial.expect_suppose(b"b if c", Answer::Done);
    let mut trial = trial.reopen();
    trial.expect_add(b"d if e", Answer::Done);
    trial.expect_add(b"b", Answer::no_number(0));
    trial.expect_add(b"e", Answer::Done);
    let mut trial = trial.seal();
    let question = Question::ample(b"d", Restart::Allowed);
    let found = Answer::Yes { count: 2, len: 4 };
    trial.expect_ask(&question, found, &[1, 2, 1, 3])?;
    trial.expect_withdraw(NONE_STANDING);
    Ok(trial.tally)
}

/// All of it.
pub fn suppositions(heap: Global) -> Result<Tally, AllocError> {
    let mut tally = fill_and_empty(heap)?;
    tally += fill_and_reopen(heap)?;
    tally += add_after_reopening(heap)?;
    Ok(tally)
}
