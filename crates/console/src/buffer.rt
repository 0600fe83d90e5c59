//! Bytes in fixed memory: a line that is taken in, and one that is printed.
ghost use Rattle.std.specs.Prelude.{◌≡◌, ◌≤◌, length};

/// So many bytes of a line decide its answer: a mark, a blank and one byte more than a rule may have.
pub const LINE_BYTES: usize = 1_027;
/// The longest line that is printed: `yes`, a count of at most twenty digits and a tree of 4,096 bytes, with blanks and line feed.
pub const PRINTED_BYTES: usize = 8_218;

/// The first `N` bytes of what is put in, however long that is.
// Lines are `Copy`, which `arrayvec::ArrayVec` is not, and of any bytes, where `ArrayString` has text alone.
#[derive(Clone, Copy)]
pub struct Buffer<const N: usize> {
    bytes: [u8; N],
    len: usize,
    ghost fits: { len ≤ N },
    ghost whole: { length bytes ≡ N },
}

/// The first bytes of a line, however long it is.
pub type Line = Buffer<LINE_BYTES>;
/// The bytes of a printed line.
pub type Printed = Buffer<PRINTED_BYTES>;

impl<const N: usize> Buffer<N> {
    ghost use Rattle.std.specs.Prelude.{◌≡◌, ℕ, ◌<◌, List, [], ◌∷◌};
    ghost use Rattle.console.specs.Texts.{text, Keeps, Gains, no_bytes};

    /// No bytes.
    pub fn new() -> Self
        ensures text { text result ≡ [] }
        ensures keeps { Keeps result [] }
    {
        Buffer {
            bytes: [0; N],
            len: 0,
        }
    }

    /// The bytes that were kept.
    pub fn as_bytes(&self) -> &[u8]
        ensures { result.now ≡ text self.now }
    {
        &self.bytes[..self.len]
    }

    /// Whether no byte was put in.
    pub fn is_empty(&self) -> bool
        ensures { 0 < N → (whole : List ℕ) → Keeps self.now whole → result ≡ no_bytes whole }
    {
        self.len == 0
    }

    /// No bytes again.
    pub fn clear(&mut self)
        ensures text { text self.new ≡ [] }
        ensures keeps { Keeps self.new [] }
    {
        self.len = 0;
    }

    /// One byte more.
    pub fn push(&mut self, byte: u8)
        ensures { Gains self.old (byte ∷ []) self.new }
    {
        // Not by `extend_from_slice`: that calls for a copy of one byte.
        if self.len < N {
            self.bytes[self.len] = byte;
            self.len += 1;
        }
    }

    /// More bytes; those for which there is no room are not kept.
    pub fn extend_from_slice(&mut self, more: &[u8])
        ensures { Gains self.old more.now self.new }
    {
        let kept = more.len().min(N - self.len);
        let end = self.len + kept;
        // The slice first: a part of an array whose length is a const parameter is not lent.
        let bytes = &mut self.bytes[..];
        bytes[self.len..end].copy_from_slice(&more[..kept]);
        self.len = end;
    }
}
