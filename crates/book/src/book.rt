//! The book.
ghost use Rattle.std.specs.Prelude.{◌≡◌, ℕ, ◌^◌, ◌<◌, ◌≤◌, length, slice_index};
ghost use Rattle.keys.specs.Limits.{most_names};
ghost use Rattle.logic.specs.Rules.{head_of, bodies_of};
ghost use Rattle.logic.specs.Sets.{Has};
ghost use Rattle.book.specs.Limits.{most_records};
ghost use Rattle.book.specs.Records.{stored, set_at};
ghost use Rattle.book.specs.Sets.{bit};

use crate::number::RECORDS;
use crate::record::Record;
use crate::record_set::RecordSet;
use keys::NAMES;

/// The records in use, by number; for each name the records that it heads; how many records and names are in use; and
/// the records in force.
// It is Copy and takes no heap, so it is arrays with how much of them is in use beside them.
// `heads` repeats what the records say, so that a query meets only the rules with its head.
// `count` and `names` are no `Mark`: the invariants read them apart.
#[derive(Clone, Copy)]
pub struct Book {
    pub(crate) records: [Record; RECORDS],
    pub(crate) heads: [RecordSet; NAMES],
    pub(crate) count: u8,
    pub(crate) names: u8,
    pub(crate) in_force: RecordSet,
    ghost whole: { length records ≡ most_records },
    ghost each: { length heads ≡ most_names },
    ghost few: { count ≤ most_records },
    ghost few_names: { names ≤ most_names },
    ghost earlier: { (r i : ℕ) → i < length (bodies_of (stored count records) r) → slice_index (bodies_of (stored count records) r) i < r },
    ghost named: { (r : ℕ) → r < count → head_of (stored count records) r < names },
    ghost used: { (x r : ℕ) → Has (set_at heads x) r → r < count },
    ghost headed: { (x r : ℕ) → Has (set_at heads x) r → head_of (stored count records) r ≡ x },
    ghost all: { (r : ℕ) → r < count → bit (set_at heads (head_of (stored count records) r)) r ≡ 1 },
    ghost standing: { in_force.bits < 2 ^ count },
}

/// How many records and names are in use at some time.
#[derive(Clone, Copy, Default)]
pub struct Mark {
    pub records: u8,
    pub names: u8,
}
