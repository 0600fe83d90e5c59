//! The two states of a book.
use crate::limits::SUPPOSITIONS;
use arrayvec::ArrayVec;
use book::{Book, Mark};
use keys::Register;

/// A book that takes rules.
#[derive(Drop)]
pub struct Draft<'a, K> {
    pub(crate) register: Register<'a, K>,
    pub(crate) book: Book,
}

/// A book that takes suppositions and questions.
#[derive(Drop)]
pub struct Sealed<'a, K> {
    pub(crate) draft: Draft<'a, K>,
    /// Where the book stood before each supposition that stands, the first of them first.
    pub(crate) marks: ArrayVec<Mark, SUPPOSITIONS>,
}

/// A book in either state.
#[derive(Drop)]
pub enum State<'a, K> {
    Open(Draft<'a, K>),
    Shut(Sealed<'a, K>),
}
