//! The words and marks of the text form.
ghost use Rattle.std.specs.Prelude.{◌≡◌, ℕ, ◌+◌, ◌<◌, ◌≤◌, true, false, length, ◌≢◌, slice_index};
ghost use Rattle.reader.specs.Lexemes.{letter, wordly, All, Spaces, SpellsIf, Plain, Is, Lexes};

use crate::limits::NAME_BYTES;

/// What a word or a mark is.
#[derive(Clone, Copy, Debug, PartialEq)]
pub enum Token {
    /// `(`
    Open,
    /// `)`
    Close,
    /// `,`
    Comma,
    /// The word `if`.
    If,
    /// A name of at most 16 bytes.
    Name,
    /// A name of over 16 bytes.
    Long,
    /// An unknown byte, or a word that is no name.
    Stray,
    /// The end of the input.
    Finish,
}

/// A word or a mark, from the place `start` up to the place `end`. A stray ends where it starts, as nothing is read behind it.
// A place with its bytes would be a struct taken apart again in each of the four that find a lexeme.
#[derive(Clone, Copy, Debug, PartialEq)]
pub struct Lexeme {
    pub token: Token,
    pub start: usize,
    pub end: usize,
}

/// Whether the byte is a lower-case letter.
fn is_letter(byte: u8) -> bool
    ensures { result ≡ letter byte }
{
    byte.is_ascii_lowercase()
}

/// Whether the byte may stand in a word.
pub(crate) fn is_wordly(byte: u8) -> bool
    ensures { result ≡ wordly byte }
{
    matches!(byte, b'a'..=b'z' | b'0'..=b'9' | b'_')
}

/// How many bytes pass the test before the first that fails it.
pub(crate) fn run_length<F: Fn(u8) -> bool>(bytes: &[u8], test: F) -> usize
    requires { F.IsAlwaysCallable test }
    ensures within { result ≤ length bytes.now }
    ensures passes { (k : ℕ) → k < result → F.post test (slice_index bytes.now k) true }
    ensures stops { result < length bytes.now → F.post test (slice_index bytes.now result) false }
{
    let fails = bytes.iter().position(|byte| !test(*byte));
    fails.unwrap_or(bytes.len())
}

/// The first place from `from` on whose byte fails the test.
fn run_end<F: Fn(u8) -> bool>(bytes: &[u8], from: usize, test: F) -> usize
    requires callable { F.IsAlwaysCallable test }
    requires within { from ≤ length bytes.now }
    ensures from { from ≤ result }
    ensures within { result ≤ length bytes.now }
    ensures passes { (k : ℕ) → from ≤ k → k < result → F.post test (slice_index bytes.now k) true }
    ensures stops { result < length bytes.now → F.post test (slice_index bytes.now result) false }
{
    from + run_length(&bytes[from..], test)
}

/// The kind of the word that begins at `start`, where no mark and no space stands, and where it ends.
/// A stray ends where it starts, as nothing is read behind it.
fn word_at(bytes: &[u8], start: usize) -> (Token, usize)
    requires { Plain bytes.now start }
    ensures { Is bytes.now result.0 start result.1 }
{
    if !is_letter(bytes[start]) {
        return (Token::Stray, start);
    }
    let end = run_end(bytes, start, is_wordly);
    let word = &bytes[start..end];
    if word.len() > NAME_BYTES {
        (Token::Long, end)
    } else if word == b"if".as_slice() {
        (Token::If, end)
    } else {
        (Token::Name, end)
    }
}

/// What stands at `start`, where no space does, and where it ends.
fn token_at(bytes: &[u8], start: usize) -> (Token, usize)
    requires within { start ≤ length bytes.now }
    requires no_space { start < length bytes.now → slice_index bytes.now start ≢ 32 }
    ensures { Is bytes.now result.0 start result.1 }
{
    let Some(byte) = bytes.get(start) else {
        return (Token::Finish, start);
    };
    match *byte as char {
        '(' => (Token::Open, start + 1),
        ')' => (Token::Close, start + 1),
        ',' => (Token::Comma, start + 1),
        _ => word_at(bytes, start),
    }
}

/// The next word or mark from the place `from` on.
pub(crate) fn lex(bytes: &[u8], from: usize) -> Lexeme
    requires { from ≤ length bytes.now }
    ensures { Lexes bytes.now from result }
{
    let start = run_end(bytes, from, |byte| byte == b' ');
    let (token, end) = token_at(bytes, start);
    Lexeme { token, start, end }
}
