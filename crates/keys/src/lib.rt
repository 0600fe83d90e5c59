//! Keys and their numbers: a register numbers keys at first appearance, in slots that the caller lends.
#![tactic(auto)]

ghost use Rattle.std.specs.Prelude.{◌≡◌, Bool, true};

mod lookup;
mod numbers;
mod register;
#[cfg(test)]
mod tests;

pub use lookup::first_same;
pub use numbers::{KeyCount, KeyNumber, NAMES, RegisterFault};
pub use register::{Register, numbers_are_kept};

/// A kind of key: sameness can be told of any two.
pub trait Key {
    /// Whether two keys are the same.
    ghost same: { Self → Self → Bool };

    /// Tells whether the other key is the same.
    fn same_as(&self, other: &Self) -> bool
        ensures { result ≡ same self.now other.now };

    ghost reflexive: { (x : Self) → same x x ≡ true };

    ghost symmetric: { (x y : Self) → same x y ≡ true → same y x ≡ true };

    ghost transitive: { (x y z : Self) → same x y ≡ true → same y z ≡ true → same x z ≡ true };
}
