//! The service: a draft takes rules, a sealed book takes suppositions and questions.
#![tactic(auto)]

mod calls;
mod drafts;
mod entry;
mod fault;
mod laws;
pub mod limits;
mod looking;
mod questions;
mod replaying;
mod sealed;
mod state;

pub use calls::{Answer, Call};
pub use fault::{Fault, Layer};
pub use laws::every_use_is_a_run;
pub use prover::{Outcome, Restart, Verdict};
pub use replaying::replay;
pub use state::{Draft, Sealed, State};
