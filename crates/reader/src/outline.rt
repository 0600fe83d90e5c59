//! The outline of a rule: its heads in the order of the input, and its rules in the order in which they end.
ghost use Rattle.std.specs.Prelude.{◌≤◌, take};
ghost use Rattle.std.specs.List.{All};
ghost use Rattle.reader.specs.Limits.{most_heads, most_bodies};

use crate::limits::HEADS;

mod build;
mod view;

/// A rule that has ended: the number of its head's mention, and how many bodies it has.
// Plain data that anyone may make: how many bodies a rule may have is the outline's promise.
#[derive(Clone, Copy, Debug, Default, PartialEq)]
pub struct End {
    pub mention: u16,
    pub bodies: u8,
}

/// The places of the heads in the order of the input, and the rules in the order in which they end.
// Arrays with lengths beside them: an outline is `Copy`, and the crate allocates nothing.
#[derive(Clone, Copy)]
pub struct Outline {
    places: [u16; HEADS],
    mentioned: usize,
    ends: [End; HEADS],
    ended: usize,
    ghost heads_fit: { mentioned ≤ most_heads },
    ghost ends_fit: { ended ≤ most_heads },
    ghost few: { All (λ e. e.bodies ≤ most_bodies) (take ended ends) },
}
