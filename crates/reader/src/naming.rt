//! What is done with names.
ghost use Rattle.std.specs.Prelude.{◌≡◌, ℕ, ◌<◌, ◌≤◌, length, drop};
ghost use Rattle.reader.specs.Names.{text, same_name, named, word};
ghost use Rattle.reader.specs.TextTotal.{text_reading};
ghost use Rattle.reader.specs.NameBytes.{same_reflexive, same_symmetric, same_transitive};

use crate::fault::ReaderFault;
use crate::lexer::{is_wordly, run_length};
use crate::limits::NAME_BYTES;
use crate::name::Name;
use crate::outline::Outline;
use crate::text::read_text;
use crate::written::Written;
use keys::Key;

/// The word at `place`: as long as can be, and empty where none stands.
fn word_at(bytes: &[u8], place: usize) -> &[u8]
    ensures { result.now ≡ word (drop place bytes.now) }
{
    let rest = &bytes[place.min(bytes.len())..];
    &rest[..run_length(rest, is_wordly)]
}

impl Name {
    /// The name of a word, of which the first 16 bytes count.
    pub fn new(word: &[u8]) -> Name
        ensures { result ≡ named word.now }
    {
        let len = word.len().min(NAME_BYTES);
        let mut bytes = [0; NAME_BYTES];
        bytes[..len].copy_from_slice(&word[..len]);
        Name {
            len: len as u8,
            bytes,
        }
    }

    /// The bytes of the name.
    fn text(&self) -> &[u8]
        ensures { result.now ≡ text self.now }
    {
        &self.bytes[..self.len as usize]
    }
}

impl Key for Name {
    ghost same = { same_name };

    ghost reflexive = { same_reflexive };

    ghost symmetric = { same_symmetric };

    ghost transitive = { same_transitive };

    // By the bytes in use: that zeros stand behind them is no field's promise.
    fn same_as(&self, other: &Name) -> bool {
        self.text() == other.text()
    }
}

impl Written for Name {
    ghost reading = { text_reading };

    fn outline(bytes: &[u8]) -> Result<Outline, ReaderFault> {
        read_text(bytes)
    }

    fn key_at(bytes: &[u8], place: usize) -> Name {
        Name::new(word_at(bytes, place))
    }
}
