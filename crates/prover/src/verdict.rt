//! What the check of tree bytes says.

/// The bytes are one whole tree of the goal, or the first place at which they are not. No `Result`: a rejection is an answer,
/// and within the service's `Result` a `?` would pass it on as a refusal.
#[derive(Clone, Copy, PartialEq, Debug)]
pub enum Verdict {
    Accepted,
    Rejected { place: usize },
}

/// The place of the byte that does not belong there, or the length where bytes run out.
#[derive(Clone, Copy)]
pub struct Misread {
    pub place: usize,
}
