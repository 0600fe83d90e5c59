//! What ties a kind of key to its written form.
ghost use Rattle.std.specs.Prelude.{ℕ, List};
ghost use Rattle.reader.specs.Written.{Reading, Outlined, KeyAt};

use crate::fault::ReaderFault;
use crate::outline::Outline;
use keys::Key;

/// A kind of key that has a written form.
pub trait Written: Key {
    /// What bytes are read as.
    ghost reading: { List ℕ → Reading Self };

    /// The outline of what the bytes are read as, or why and where they are refused.
    fn outline(bytes: &[u8]) -> Result<Outline, ReaderFault>
        ensures { Outlined (reading bytes.now) result };

    /// The key of the head that stands at `place`; where none stands, any key.
    fn key_at(bytes: &[u8], place: usize) -> Self
        ensures { KeyAt (reading bytes.now) place result };
}
