//! What a call answers, in one form for all calls.
use prover::{Outcome, Verdict};
use service::{Fault, Layer};

/// What a call answers. The cases of `Outcome` and `Verdict` stand flat, so that each expected answer is one literal.
// Not the answer of the service either: a refusal is told by number and place, worked out by hand.
#[derive(Clone, Copy, PartialEq)]
pub enum Answer {
    Done,
    Yes { count: u32, len: usize },
    No { count: u32 },
    Spent { count: u32 },
    Long { count: u32, len: usize },
    Accepted,
    Rejected { place: usize },
    Refused { number: u8, place: usize },
    /// A refusal by another layer than the one of its number.
    Astray { number: u8 },
}

impl Answer {
    /// No number left for the key at this place.
    pub fn no_number(place: usize) -> Answer {
        Answer::Refused { number: 11, place }
    }
}

/// The layer whose refusal has this number.
fn layer_of(number: u8) -> Option<Layer> {
    match number {
        1..=5 => Some(Layer::Reader),
        11 => Some(Layer::Register),
        21 | 30 | 31 => Some(Layer::Book),
        32..=34 => Some(Layer::Service),
        _ => None,
    }
}

impl From<Fault> for Answer {
    fn from(fault: Fault) -> Answer {
        let number = fault.number();
        if layer_of(number) == Some(fault.layer()) {
            let place = fault.place();
            Answer::Refused { number, place }
        } else {
            Answer::Astray { number }
        }
    }
}

/// The answer of a call that only changes the book.
impl From<()> for Answer {
    fn from(_done: ()) -> Answer {
        Answer::Done
    }
}

/// The answer of an ask.
impl From<Outcome> for Answer {
    fn from(outcome: Outcome) -> Answer {
        match outcome {
            Outcome::Yes { count, len } => Answer::Yes { count, len },
            Outcome::No { count } => Answer::No { count },
            Outcome::Spent { count } => Answer::Spent { count },
            Outcome::Long { count, len } => Answer::Long { count, len },
        }
    }
}

/// The answer of a check.
impl From<Verdict> for Answer {
    fn from(verdict: Verdict) -> Answer {
        match verdict {
            Verdict::Accepted => Answer::Accepted,
            Verdict::Rejected { place } => Answer::Rejected { place },
        }
    }
}

/// The answer of a call that may refuse.
impl<T: Into<Answer>> From<Result<T, Fault>> for Answer {
    fn from(res: Result<T, Fault>) -> Answer {
        res.map_or_else(Answer::from, T::into)
    }
}
