//! The words of a journal's lines.
ghost use Rattle.std.specs.Option.{MatchOption};
ghost use Rattle.journal.specs.Splitting.{Lacks, FirstAt, Splits};

use std::alloc::Global;
use std::str;

/// What stands before a mark, and what stands behind it.
#[derive(Clone, Copy)]
pub struct Split<'l> {
    pub word: &'l [u8],
    pub rest: &'l [u8],
}

/// The place of the first mark in a line; nothing where there is none.
fn first_mark(line: &[u8], mark: u8) -> Option<usize>
    ensures { MatchOption result (Lacks line.now mark) (λ i. FirstAt line.now mark i) }
{
    line.iter().position(|byte| *byte == mark)
}

/// Splits a line at the first mark; nothing where there is none.
// The library's `split_once` is for text, and these are bytes.
pub fn split_once(line: &[u8], mark: u8) -> Option<Split<'_>>
    ensures { MatchOption result (Lacks line.now mark) (λ s. Splits line.now mark s.word.now s.rest.now) }
{
    let i = first_mark(line, mark)?;
    Some(Split {
        word: &line[..i],
        rest: &line[i + 1..],
    })
}

/// The most digits of a number.
const DIGITS: usize = 9;

/// A number in decimal, without sign, of one to nine digits.
pub fn number(word: &[u8]) -> Option<u32> {
    // The length first: a word of any length is refused without being read.
    let is_decimal = word.len() <= DIGITS && word.iter().all(|byte| byte.is_ascii_digit());
    if !is_decimal {
        return None;
    }
    str::from_utf8(word).ok()?.parse().ok()
}

/// Whether all bytes are digits in lower-case hexadecimal.
// `hex` takes capital letters too.
fn is_hex(word: &[u8]) -> bool {
    word.iter()
        .all(|byte| matches!(*byte, b'0'..=b'9' | b'a'..=b'f'))
}

/// The bytes that a word writes in lower-case hexadecimal; `-` writes none. Nothing, too, where memory has no room for them.
pub fn hex_bytes(heap: Global, word: &[u8]) -> Option<Vec<u8>> {
    match word {
        [] => None,
        b"-" => Some(Vec::new(heap)),
        _ if is_hex(word) => hex::decode(heap, word).ok(),
        _ => None,
    }
}

/// A 64-bit word of sixteen digits in lower-case hexadecimal.
pub fn hex_word(word: &[u8]) -> Option<u64> {
    let mut bytes = 0u64.to_be_bytes();
    if word.len() != 2 * bytes.len() || !is_hex(word) {
        return None;
    }
    hex::decode_to_slice(word, &mut bytes).ok()?;
    Some(u64::from_be_bytes(bytes))
}
