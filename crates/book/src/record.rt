//! A rule or a body as it is stored.
ghost use Rattle.std.specs.Prelude.{◌≡◌, [], Decides};
ghost use Rattle.logic.specs.Sets.{AllBelow};
ghost use Rattle.book.specs.Numbers.{record_indices};
ghost use Rattle.book.specs.Records.{numbers, OneMore};

use crate::bodies::{BODIES, Bodies};
use crate::number::RecordNumber;
use crate::record_set::RecordSet;
use keys::KeyNumber;

/// A rule or a body: its head, and its own bodies.
#[derive(Clone, Copy)]
pub struct Record {
    pub head: KeyNumber,
    pub bodies: Bodies,
}

impl Bodies {
    /// No bodies.
    pub fn none() -> Bodies
        ensures { numbers result ≡ [] }
    {
        Bodies {
            set: RecordSet::EMPTY,
            at: [RecordNumber::default(); BODIES],
            len: 0,
        }
    }

    /// One more body behind these, or nothing where there is no room.
    pub fn with(self, number: RecordNumber) -> Option<Bodies>
        ensures { OneMore self number.index result }
    {
        if self.len as usize >= BODIES {
            return None;
        }
        let mut at = self.at;
        at[self.len as usize] = number;
        Some(Bodies {
            set: self.set.insert(number),
            at,
            len: self.len + 1,
        })
    }

    /// The bodies, in order.
    pub fn as_slice(&self) -> &[RecordNumber]
        ensures { record_indices result.now ≡ numbers self.now }
    {
        &self.at[..self.len as usize]
    }

    /// Tells whether all bodies are below a count.
    pub fn all_below(&self, count: u8) -> bool
        ensures { Decides result (AllBelow count (numbers self.now)) }
    {
        self.as_slice().iter().all(|body| body.index < count)
    }
}
