//! Names, the keys of the text form.
ghost use Rattle.std.specs.Prelude.{◌≡◌, ◌≤◌, length};
ghost use Rattle.reader.specs.Limits.{name_bytes};

use crate::limits::NAME_BYTES;

/// A name: its bytes are the first `len`. What stands behind them does not count.
// An array with a length beside it: a name is `Copy`, and the crate allocates nothing. The console's buffer lies a layer above.
#[derive(Clone, Copy)]
pub struct Name {
    pub(crate) len: u8,
    pub(crate) bytes: [u8; NAME_BYTES],
    ghost short: { len ≤ name_bytes },
    ghost whole: { length bytes ≡ name_bytes },
}
