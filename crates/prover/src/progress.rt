//! How far the search is.
ghost use Rattle.std.specs.Prelude.{◌*◌, ◌≤◌};
ghost use Rattle.prover.specs.Limits.{most_queries};

use crate::task::Restart;
use book::Book;
use keys::KeyNumber;

/// The budget is spent.
#[derive(Clone, Copy, PartialEq, Debug)]
pub struct Spent;

/// How many queries were counted, of how many that may be, and how long the tree is so far: each query adds two bytes at
/// the most.
#[derive(Clone, Copy)]
pub struct Progress {
    pub count: u32,
    pub budget: u32,
    pub len: usize,
    ghost within: { count ≤ budget },
    ghost bounded: { budget ≤ most_queries },
    ghost short: { len ≤ 2 * count },
}

/// A search on its way: what it is asked, how far it is, and the buffer for the bytes of the tree.
#[derive(Drop)]
pub struct Search<'s> {
    pub book: &'s Book,
    pub goal: KeyNumber,
    pub restart: Restart,
    pub progress: Progress,
    pub out: &'s mut [u8],
}
