//! The console: a line in, the bytes of the printed line out.
#![tactic(auto)]

mod buffer;
mod drafts;
pub mod limits;
mod lines;
mod orders;
mod printing;
mod refusals;
mod sealed;

pub use buffer::{Line, Printed};
pub use drafts::{Seal, answer_draft, seal_draft};
pub use sealed::answer_sealed;
