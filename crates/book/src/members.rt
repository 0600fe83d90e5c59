//! The records of a set, one after the other.
ghost use Rattle.std.specs.Prelude.{◌≡◌};
ghost use Rattle.std.specs.Iterator.{at_most};
ghost use Rattle.book.specs.Sets.{LeastTaken};

use crate::number::RecordNumber;
use crate::record_set::RecordSet;

/// The records of a set that are still to come, by rising number.
#[derive(Clone, Copy, Debug)]
pub struct Members {
    left: RecordSet,
}

impl Iterator for Members {
    type Item = RecordNumber;

    ghost next_gives = { λ s r t. LeastTaken s.left.bits r t.left.bits };

    ghost remaining = { λ s. at_most s.left.bits };

    fn next(&mut self) -> Option<RecordNumber> {
        let first = self.left.first()?;
        self.left = self.left.rest();
        Some(first)
    }
}

impl IntoIterator for RecordSet {
    type Item = RecordNumber;

    type IntoIter = Members;

    ghost into_iter_gives = { λ set members. members.left ≡ set };

    fn into_iter(self) -> Members {
        Members { left: self }
    }
}
