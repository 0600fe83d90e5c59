//! Reads a rule in codes.
ghost use Rattle.std.specs.Prelude.{◌≡◌, ℕ, ◌+◌, ◌<◌, ◌≤◌, length, MatchResult};
ghost use Rattle.arrayvec.specs.ArrayVec.{array_vec_len};
ghost use Rattle.reader.specs.Limits.{rule_bytes};
ghost use Rattle.reader.specs.Codes.{At, ReadsAs, Refused, Offends};

use crate::fault::{ReaderFault, Reason};
use crate::limits::{BODIES, DEPTH, check_size};
use crate::outline::Outline;
use arrayvec::ArrayVec;

pub mod laws;

// Kind bytes are numbers: the reader matches its own state together with the byte, and an enum would have to be made from it first.
/// The kind byte that opens a rule.
const OPEN: u8 = 1;
/// The kind byte that closes the rule opened last.
const CLOSE: u8 = 2;

/// How many bytes a head has.
const HEAD: u8 = 3;

/// What the next byte is.
#[derive(Clone, Copy)]
enum State {
    /// The kind byte of the one rule.
    Before,
    /// A byte of a head, of which so many are still to come.
    Head(u8),
    /// A kind byte inside a rule.
    Inside,
    /// A byte too many.
    After,
}

/// A rule that stands open: its head's mention, and how many bodies it has so far.
#[derive(Clone, Copy, Default)]
struct Open {
    mention: u16,
    bodies: u8,
}

/// A reader that has read the bytes before `place`, with the rules that stand open, the one opened last on top.
// What it has read is no ghost field: a ghost field holds one fact of each value, and this fact carries the list of the open rules, which the field would have to find.
// Each move counts the place itself, so that it can promise where the next byte stands.
#[derive(Drop)]
struct CodeReader<'a> {
    // Read by the contracts alone.
    bytes: &'a [u8],
    place: usize,
    state: State,
    stack: ArrayVec<Open, DEPTH>,
    outline: Outline,
    ghost short: { length bytes.now ≤ rule_bytes },
    ghost within: { place ≤ length bytes.now },
}

impl<'a> CodeReader<'a> {
    ghost use Rattle.reader.specs.CodeSteps.{InHead, input, Sound, Ready, Stepped};

    /// A reader that has read nothing.
    fn new(bytes: &'a [u8]) -> CodeReader<'a>
        requires { length bytes.now ≤ rule_bytes }
        ensures sound { Sound result }
        ensures input { input result ≡ bytes.now }
        ensures place { result.place ≡ 0 }
    {
        CodeReader {
            bytes,
            place: 0,
            state: State::Before,
            stack: ArrayVec::new(),
            outline: Outline::new(),
        }
    }

    /// A refusal at the next byte.
    // Each reader knows its own place.
    fn fault(&self, reason: Reason) -> ReaderFault
        ensures { result ≡ record { reason = reason; place = self.now.place } }
    {
        ReaderFault {
            reason,
            place: self.place,
        }
    }

    /// Opens a rule.
    fn enter(&mut self) -> Result<(), ReaderFault>
        requires { Ready self.old 1 }
        ensures { MatchResult result (λ _. Stepped self.old self.new) (λ f. Offends (input self.old) f.reason f.place) }
    {
        if self.stack.is_full() {
            return Err(self.fault(Reason::Deep));
        }
        if self
            .stack
            .as_slice()
            .last()
            .is_some_and(|open| open.bodies == BODIES)
        {
            return Err(self.fault(Reason::Ninth));
        }
        let mention = self.outline.mention(self.place + 1);
        self.stack.push(Open { mention, bodies: 0 });
        self.state = State::Head(HEAD);
        self.place += 1;
        Ok(())
    }

    /// Takes a byte of a head, of which `left` are still to come.
    fn head(&mut self, left: u8)
        requires head { InHead (input self.old) self.old.stack.items self.old.outline self.old.place left }
        requires more { self.old.place < length (input self.old) }
        ensures { Stepped self.old self.new }
    {
        self.state = if left > 1 {
            State::Head(left - 1)
        } else {
            State::Inside
        };
        self.place += 1;
    }

    /// Closes the rule opened last.
    fn leave(&mut self)
        requires ready { Ready self.old 2 }
        requires open { 0 < array_vec_len self.old.stack }
        ensures { Stepped self.old self.new }
    {
        let done = self.stack.pop().unwrap();
        self.outline.end(done.mention, done.bodies);
        self.place += 1;
        match self.stack.pop() {
            Some(parent) => {
                // Taken off and put back. Tried: `as_mut_slice().last_mut()`, and the proof got no equation for what the stack holds afterwards.
                self.stack.push(Open {
                    bodies: parent.bodies + 1,
                    ..parent
                });
                self.state = State::Inside;
            }
            None => self.state = State::After,
        }
    }

    /// Takes the next byte.
    fn step(&mut self, byte: u8) -> Result<(), ReaderFault>
        requires sound { Sound self.old }
        requires here { At (input self.old) self.old.place byte }
        ensures { MatchResult result (λ _. Stepped self.old self.new) (λ f. Offends (input self.old) f.reason f.place) }
    {
        match (self.state, byte) {
            (State::Before | State::Inside, OPEN) => self.enter()?,
            (State::Inside, CLOSE) => self.leave(),
            (State::Head(left), _) => self.head(left),
            (State::Before | State::Inside | State::After, _) => {
                return Err(self.fault(Reason::Misplaced));
            }
        }
        Ok(())
    }
}

/// Reads one rule, or says what is wrong with it and where.
pub fn read_codes(bytes: &[u8]) -> Result<Outline, ReaderFault>
    ensures { MatchResult result (λ o. ReadsAs bytes.now o) (λ f. Refused bytes.now f.reason f.place) }
{
    // No `?`: it would make room for one more outline, and clear it, at each rule that is read.
    if let Err(fault) = check_size(bytes) {
        return Err(fault);
    }
    let mut reader = CodeReader::new(bytes);
    for byte in bytes {
        reader.step(*byte)?;
    }
    match reader.state {
        State::After => Ok(reader.outline),
        _ => Err(reader.fault(Reason::Misplaced)),
    }
}

#[cfg(test)]
mod tests {
    use super::*;
    use crate::outline::End;
    use std::process::Abort;
    use std::test::Fail;

    // The fault with which the codes are refused, if they are.
    fn refusal(codes: &[u8]) -> Option<ReaderFault> {
        read_codes(codes).err()
    }

    // Checks why and where the codes are refused.
    fn refused(rt: &impl Abort, codes: &[u8], reason: Reason, place: usize) -> Result<(), Fail> {
        assert_eq!(rt; refusal(codes), Some(ReaderFault { reason, place }));
        Ok(())
    }

    #[test]
    fn reads_a_rule(rt: HostRuntime) -> Result<(), Fail> {
        let Ok(outline) = read_codes(&[1, 0, 1, 2, 1, 0, 2, 1, 2, 2]) else {
            return Err(Fail::new("refused"));
        };
        assert!(rt; outline.places() == [1, 5].as_slice());
        assert!(rt;
            outline.ends()
                == [
                    End {
                        mention: 1,
                        bodies: 0,
                    },
                    End {
                        mention: 0,
                        bodies: 1,
                    },
                ]
                .as_slice()
        );
        Ok(())
    }

    #[test]
    fn misses_what_is_cut_off(rt: HostRuntime) -> Result<(), Fail> {
        let codes = [1, 0, 1, 2, 1, 0, 2, 1, 2, 2];
        for cut in 0..10 {
            refused(&rt, &codes[0..cut], Reason::Misplaced, cut)?;
        }
        Ok(())
    }

    #[test]
    fn refuses_bytes_that_cannot_stand(rt: HostRuntime) -> Result<(), Fail> {
        refused(&rt, &[2], Reason::Misplaced, 0)?;
        refused(&rt, &[1, 0, 0, 0, 3, 2], Reason::Misplaced, 4)?;
        refused(&rt, &[1, 0, 0, 0, 2, 2], Reason::Misplaced, 5)
    }

    #[test]
    fn keeps_the_depth(rt: HostRuntime) -> Result<(), Fail> {
        let mut codes = [2; 80];
        for byte in codes.iter_mut().step_by(4).take(16) {
            *byte = 1;
        }
        assert!(rt; refusal(&codes).is_none());
        codes[64] = 1;
        refused(&rt, &codes, Reason::Deep, 64)
    }

    #[test]
    fn keeps_the_bodies(rt: HostRuntime) -> Result<(), Fail> {
        let mut codes = [2; 45];
        codes[0] = 1;
        for byte in codes.iter_mut().skip(4).step_by(5).take(8) {
            *byte = 1;
        }
        assert!(rt; refusal(&codes).is_none());
        codes[44] = 1;
        refused(&rt, &codes, Reason::Ninth, 44)
    }

    #[test]
    fn keeps_the_size(rt: HostRuntime) -> Result<(), Fail> {
        refused(&rt, &[1; 1024], Reason::Deep, 64)?;
        refused(&rt, &[1; 1025], Reason::Oversize, 1024)
    }
}
