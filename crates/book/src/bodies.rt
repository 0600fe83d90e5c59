//! The bodies of a rule.
ghost use Rattle.std.specs.Prelude.{◌≡◌, ◌≤◌, length};
ghost use Rattle.logic.specs.Sets.{mask};
ghost use Rattle.book.specs.Limits.{most_bodies};
ghost use Rattle.book.specs.Numbers.{listed};

use crate::number::RecordNumber;
use crate::record_set::RecordSet;

/// At most so many bodies has a rule.
pub const BODIES: usize = reader::limits::BODIES as usize;

/// The records of a rule's bodies, in order, and as a set.
// It is Copy and takes no heap, so it is an array with its length beside it; the list is read through `as_slice`.
// The set is kept beside the list, not made at each query: a supposition is one `or`.
#[derive(Clone, Copy)]
pub struct Bodies {
    pub set: RecordSet,
    pub at: [RecordNumber; BODIES],
    pub len: u8,
    ghost whole: { length at ≡ most_bodies },
    ghost few: { len ≤ most_bodies },
    ghost same: { set.bits ≡ mask (listed len at) },
}
