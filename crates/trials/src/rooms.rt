//! How many keys and records there is room for, in either form.
use crate::answer::Answer;
use crate::spelling::Spelling;
use crate::tally::Tally;
use crate::trial::{BookTrial, DraftTrial, Question, no_names};
use prover::Restart;
use reader::FeatureCode;
use std::alloc::{AllocError, Global};

/// More slots than there are numbers for keys.
const SLOTS: usize = 70;

const FOUND_AT_ONCE: Answer = Answer::Yes { count: 1, len: 2 };

const NO_RECORD: Answer = Answer::Refused {
    number: 21,
    place: 0,
};

impl<K: Spelling> DraftTrial<'_, K> {
    /// Adds the fact of a key.
    fn add_fact(&mut self, key: u8, answer: Answer) -> Result<(), AllocError> {
        let fact = K::fact(self.heap, key)?;
        self.expect_add(&fact, answer);
        Ok(())
    }

    /// Adds the fact of the key 0 again and again.
    fn add_zeros(&mut self, count: u8) -> Result<(), AllocError> {
        for _ in 0..count {
            self.add_fact(0, Answer::Done)?;
        }
        Ok(())
    }

    /// Adds the rule of the key 0 with this one as its body.
    fn add_zero_if(&mut self, body: u8, answer: Answer) -> Result<(), AllocError> {
        let rule = K::zero_if(self.heap, body)?;
        self.expect_add(&rule, answer);
        Ok(())
    }
}

impl<K: Spelling> BookTrial<'_, K> {
    /// Puts the fact of a key in force.
    fn suppose_fact(&mut self, key: u8, answer: Answer) -> Result<(), AllocError> {
        let fact = K::fact(self.heap, key)?;
        self.expect_suppose(&fact, answer);
        Ok(())
    }

    /// Asks the fact of a key.
    fn ask_fact(&mut self, key: u8, answer: Answer) -> Result<(), AllocError> {
        let goal = K::fact(self.heap, key)?;
        let question = Question::ample(&goal, Restart::Forbidden);
        self.expect_ask(&question, answer, &[1, key])
    }
}

/// Over slots for `most` keys, of which there is one at least: so many are taken, one more is refused at its place, and those that
/// are known still serve.
fn fill_keys<K: Spelling>(heap: Global, slots: &mut [K], most: u8) -> Result<Tally, AllocError> {
    let refused = Answer::no_number(K::HEAD_PLACE);
    let mut trial = DraftTrial::new(heap, slots);
    for key in 0..most {
        trial.add_fact(key, Answer::Done)?;
    }
    trial.add_fact(most, refused)?;
    trial.add_zero_if(most, Answer::no_number(K::BODY_PLACE))?;
    trial.add_fact(0, Answer::Done)?;
    let mut trial = trial.seal();
    trial.ask_fact(most.saturating_sub(1), FOUND_AT_ONCE)?;
    trial.ask_fact(most, refused)?;
    trial.suppose_fact(most, refused)?;
    Ok(trial.tally)
}

/// With no slots no key is taken.
fn have_no_slots<K: Spelling>(heap: Global) -> Result<Tally, AllocError> {
    let refused = Answer::no_number(K::HEAD_PLACE);
    let mut slots: [K; 0] = [];
    let mut trial = DraftTrial::new(heap, &mut slots);
    trial.add_fact(0, refused)?;
    let mut trial = trial.seal();
    trial.suppose_fact(0, refused)?;
    trial.ask_fact(0, refused)?;
    Ok(trial.tally)
}

/// 128 records are taken and the next is refused, also where its key would have a number; that number is then free again.
fn fill_records<K: Spelling>(heap: Global, slots: &mut [K]) -> Result<Tally, AllocError> {
    let mut trial = DraftTrial::new(heap, slots);
    trial.add_zeros(127)?;
    trial.add_zero_if(0, NO_RECORD)?;
    trial.add_zeros(1)?;
    for key in 0..4 {
        trial.add_fact(key, NO_RECORD)?;
    }
    let mut trial = trial.seal();
    trial.suppose_fact(0, NO_RECORD)?;
    let fact = K::fact(heap, 0)?;
    trial.expect_check(&fact, Restart::Allowed, &[1, 0], NO_RECORD);
    trial.ask_fact(0, NO_RECORD)?;
    Ok(trial.tally)
}

/// With 127 records there is one left for the goal.
fn leave_one_record<K: Spelling>(heap: Global, slots: &mut [K]) -> Result<Tally, AllocError> {
    let mut trial = DraftTrial::new(heap, slots);
    trial.add_zeros(127)?;
    let mut trial = trial.seal();
    trial.ask_fact(0, FOUND_AT_ONCE)?;
    let goal = K::zero_if(heap, 0)?;
    let question = Question {
        budget: 1,
        room: 0,
        ..Question::ample(&goal, Restart::Forbidden)
    };
    trial.expect_answer(&question, NO_RECORD)?;
    Ok(trial.tally)
}

/// Where a rule has neither numbers nor records left, the number is missed first.
fn refuse_keys_first<K: Spelling>(heap: Global, slots: &mut [K]) -> Result<Tally, AllocError> {
    let mut trial = DraftTrial::new(heap, slots);
    trial.add_zeros(128)?;
    trial.add_fact(1, Answer::no_number(K::HEAD_PLACE))?;
    trial.add_zero_if(1, Answer::no_number(K::BODY_PLACE))?;
    trial.add_zero_if(0, NO_RECORD)?;
    Ok(trial.tally)
}

/// All of it in one form.
fn try_form<K: Spelling>(heap: Global, slots: &mut [K; SLOTS]) -> Result<Tally, AllocError> {
    let mut tally = fill_keys(heap, &mut slots[..1], 1)?;
    tally += fill_keys(heap, &mut slots[..3], 3)?;
    tally += fill_keys(heap, &mut slots[..63], 63)?;
    tally += fill_keys(heap, &mut slots[..64], 64)?;
    tally += fill_keys(heap, &mut slots[..], 64)?;
    tally += have_no_slots::<K>(heap)?;
    tally += fill_records(heap, &mut slots[..2])?;
    tally += leave_one_record(heap, &mut slots[..1])?;
    tally += refuse_keys_first(heap, &mut slots[..1])?;
    Ok(tally)
}

/// Both forms.
pub fn rooms(heap: Global) -> Result<Tally, AllocError> {
    let mut tally = try_form(heap, &mut no_names())?;
    tally += try_form(heap, &mut [FeatureCode::default(); SLOTS])?;
    Ok(tally)
}
