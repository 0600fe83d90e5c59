//! Reads a rule, as text or as codes, into an outline, and keys off the places of its heads.
#![tactic(auto)]

pub mod codes;
mod fault;
mod feature_code;
pub mod laws;
mod lexer;
pub mod limits;
mod name;
mod naming;
mod outline;
mod text;
mod written;

pub use codes::read_codes;
pub use fault::{ReaderFault, Reason};
pub use feature_code::FeatureCode;
pub use name::Name;
pub use outline::{End, Outline};
pub use text::read_text;
pub use written::Written;
