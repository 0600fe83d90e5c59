//! The law of every use of a book.
ghost use Rattle.std.specs.Prelude.{ℕ};
ghost use Rattle.law.specs.Law.{Law};
ghost use Rattle.law.specs.Steps.{StepsRun};
ghost use Rattle.service.specs.Represents.{Represents};

use keys::Key;
use reader::Written;

/// Whatever calls are made from an empty draft, in whatever order, what they answer is a run, and the law holds of every run.
pub fn every_use_is_a_run<K: Key + Written>()
    ensures runs { (slots : ℕ) → StepsRun (record { same = K.same; reading = K.reading }) slots (Represents (record { same = K.same; reading = K.reading }) slots) }
    ensures law { (slots : ℕ) → Law (record { same = K.same; reading = K.reading }) slots }
{}
