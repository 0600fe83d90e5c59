//! The prover: the search for a success tree of a goal, and the check of the bytes of one.
#![tactic(auto)]

mod in_force;
mod outcome;
mod progress;
mod queries;
mod step;
mod task;
mod trees;
mod verdict;

pub use outcome::Outcome;
pub use queries::search;
pub use task::{QUERIES, Restart, Task};
pub use trees::check;
pub use verdict::Verdict;
