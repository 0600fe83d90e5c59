//! What a whole search came to.

/// The number of queries counted; with a tree, its length in bytes, also where it is longer than the buffer.
#[derive(Clone, Copy, PartialEq, Debug)]
pub enum Outcome {
    Yes { count: u32, len: usize },
    No { count: u32 },
    Spent { count: u32 },
    Long { count: u32, len: usize },
}
