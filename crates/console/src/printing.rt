//! How numbers and bytes are printed. A `write!` promises its text only where it gives `Ok`, and no clause says that it does.
ghost use Rattle.std.specs.Prelude.{◌≤◌, length, decimal};
ghost use Rattle.console.specs.Limits.{room};
ghost use Rattle.console.specs.Texts.{Gains, hex_all};

use crate::buffer::Printed;
use crate::limits::ROOM;

/// The digits of so many bytes as a tree has room for.
const DIGITS: usize = 2 * ROOM;

impl Printed {
    /// A number in decimal digits.
    pub(crate) fn decimal(&mut self, n: usize)
        ensures { Gains self.old (decimal n) self.new }
    {
        let mut digits = itoa::Buffer::new();
        self.extend_from_slice(digits.format(n).as_bytes());
    }

    /// Bytes in lower-case hexadecimal.
    pub(crate) fn hex(&mut self, bytes: &[u8])
        requires { length bytes.now ≤ room }
        ensures { Gains self.old (hex_all bytes.now) self.new }
    {
        let mut digits = [0; DIGITS];
        let digits = &mut digits[..2 * bytes.len()];
        hex::encode_to_slice(bytes, digits).unwrap();
        self.extend_from_slice(digits);
    }
}
