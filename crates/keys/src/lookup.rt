//! Finding a key in a slice of keys.
ghost use Rattle.keys.specs.Registers.{First};

use crate::Key;

/// The first place of a key that is the same as `key`.
pub fn first_same<K: Key>(keys: &[K], key: &K) -> Option<usize>
    ensures { First K.same keys.now key.now result }
{
    keys.iter().position(|k| k.same_as(key))
}
