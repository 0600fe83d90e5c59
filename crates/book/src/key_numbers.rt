//! The numbers of a rule's keys.
ghost use Rattle.std.specs.Prelude.{◌≡◌, ℕ, ◌<◌, ◌≤◌, length, slice_index};
ghost use Rattle.keys.specs.Limits.{most_names};
ghost use Rattle.reader.specs.Limits.{most_heads};
ghost use Rattle.book.specs.Indices.{indices};

use keys::KeyNumber;
use reader::limits::HEADS;

/// The numbers of a rule's keys in the order of the text, and how many names are then in use.
// It is Copy and takes no heap, so it is an array with its length beside it; it is read through `as_slice`.
#[derive(Clone, Copy)]
pub struct KeyNumbers {
    pub(crate) at: [KeyNumber; HEADS],
    pub(crate) count: usize,
    pub(crate) names: usize,
    ghost whole: { length at ≡ most_heads },
    ghost few: { count ≤ most_heads },
    ghost few_names: { names ≤ most_names },
    ghost named: { (i : ℕ) → i < count → slice_index (indices at) i < names },
}
