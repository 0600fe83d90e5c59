//! The book of records: rules and their bodies, by number; and the entering of a rule as written.
#![tactic(auto)]

mod bodies;
mod book;
mod changes;
mod entering;
mod fault;
mod key_numbers;
mod lookups;
mod members;
mod mentions;
mod number;
mod numbering;
mod record;
mod record_set;
#[cfg(test)]
mod tests;

pub use bodies::{BODIES, Bodies};
pub use book::{Book, Mark};
pub use fault::BookFault;
pub use key_numbers::KeyNumbers;
pub use lookups::book_is_well_formed;
pub use members::Members;
pub use number::{RECORDS, RecordNumber};
pub use numbering::{number_keys, numbers_lay_out};
pub use record::Record;
pub use record_set::RecordSet;
