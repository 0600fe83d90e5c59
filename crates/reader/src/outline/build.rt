//! How an outline is made.
ghost use Rattle.std.specs.Prelude.{◌≡◌, ℕ, ◌+◌, ◌<◌, ◌≤◌, [], ◌∷◌, ◌++◌};
ghost use Rattle.reader.specs.Limits.{rule_bytes, most_heads, most_bodies};
ghost use Rattle.reader.specs.Outlines.{mentions, ended};

use super::{End, Outline};
use crate::limits::HEADS;

impl Outline {
    /// The outline of nothing.
    pub(crate) fn new() -> Outline
        ensures mentioned { result.mentioned ≡ 0 }
        ensures ended { result.ended ≡ 0 }
    {
        Outline {
            places: [0; HEADS],
            mentioned: 0,
            ends: [End::default(); HEADS],
            ended: 0,
        }
    }

    /// Adds a head, and answers its number.
    pub(crate) fn mention(&mut self, place: usize) -> u16
        requires room { self.old.mentioned < most_heads }
        requires in_rule { place ≤ rule_bytes }
        ensures number { result ≡ self.old.mentioned }
        ensures count { self.new.mentioned ≡ self.old.mentioned + 1 }
        ensures added { mentions self.new ≡ mentions self.old ++ place ∷ [] }
        ensures ends { ended self.new ≡ ended self.old }
        ensures ends_count { self.new.ended ≡ self.old.ended }
    {
        let number = self.mentioned;
        self.places[number] = place as u16;
        self.mentioned += 1;
        number as u16
    }

    /// Adds a rule that has ended.
    // Beside `mention`: one function for both would borrow an array and its count, and be no shorter.
    pub(crate) fn end(&mut self, mention: u16, bodies: u8)
        requires room { self.old.ended < most_heads }
        requires few { bodies ≤ most_bodies }
        ensures count { self.new.ended ≡ self.old.ended + 1 }
        ensures added { ended self.new ≡ ended self.old ++ record { mention = mention; bodies = bodies } ∷ [] }
        ensures heads { mentions self.new ≡ mentions self.old }
        ensures heads_count { self.new.mentioned ≡ self.old.mentioned }
    {
        self.ends[self.ended] = End { mention, bodies };
        self.ended += 1;
    }
}
