//! Reads a rule in its text form.
ghost use Rattle.std.specs.Prelude.{◌≡◌, ℕ, suc, ◌+◌, ◌-◌, ◌*◌, ◌<◌, ◌≤◌, length, MatchResult, OnOk, IfErr, ◌≢◌};
ghost use Rattle.reader.specs.declared.lexer.Token.TheVariants.{Open as Opens, Close as Closes, Name as Named};
ghost use Rattle.reader.specs.declared.fault.Reason.TheVariants.{Misplaced as Misplaces};
ghost use Rattle.reader.specs.Lexemes.{Lexed, Lexes};
ghost use Rattle.reader.specs.LexTotal.{is_prop};
ghost use Rattle.reader.specs.Limits.{rule_bytes, deepest, most_bodies};
ghost use Rattle.reader.specs.Text.{Follows, Begins, BadRule, BadBody, ReadsAs, Refused};

use crate::fault::{ReaderFault, Reason};
use crate::lexer::{Lexeme, Token, lex};
use crate::limits::{BODIES, DEPTH, check_size};
use crate::outline::Outline;

/// A reader that stands at its next word or mark, with the outline of what it has read.
// That a head may stand next is no ghost field: it is false while one is being taken in.
// The depth left and the bodies so far are numbers of a call, not of the reader: the calls of one rule inside another have their own.
#[derive(Drop)]
struct TextReader<'a> {
    bytes: &'a [u8],
    next: Lexeme,
    outline: Outline,
    ghost short: { length bytes.now ≤ rule_bytes },
    ghost lexed: { Lexed bytes.now next } by { is_prop bytes.now next.token next.start next.end },
    ghost closed: { outline.ended ≤ outline.mentioned },
}

impl<'a> TextReader<'a> {
    ghost use Rattle.reader.specs.TextSteps.{input, Fresh, Advanced, ReadHead, ReadRule, ReadBody};

    /// A reader that has read nothing.
    fn new(bytes: &'a [u8]) -> TextReader<'a>
        requires { length bytes.now ≤ rule_bytes }
        ensures input { input result ≡ bytes.now }
        ensures next { Lexes bytes.now 0 result.next }
        ensures mentioned { result.outline.mentioned ≡ 0 }
        ensures ended { result.outline.ended ≡ 0 }
    {
        TextReader {
            bytes,
            next: lex(bytes, 0),
            outline: Outline::new(),
        }
    }

    /// A refusal at the next word or mark.
    // Each reader knows its own place.
    fn fault(&self, reason: Reason) -> ReaderFault
        ensures { result ≡ record { reason = reason; place = self.now.next.start } }
    {
        ReaderFault {
            reason,
            place: self.next.start,
        }
    }

    /// Goes on to the next word or mark.
    fn advance(&mut self)
        ensures { Advanced self.old self.new }
    {
        self.next = lex(self.bytes, self.next.end);
    }

    /// A refusal of what stands where a head should.
    fn no_head(&self) -> ReaderFault
        requires { self.now.next.token ≢ Named }
        ensures rule { (d : ℕ) → BadRule (input self.now) d self.now.next result.reason result.place }
        ensures body { self.now.next.token ≢ Opens → (d n : ℕ) → BadBody (input self.now) d n self.now.next result.reason result.place }
    {
        match self.next.token {
            Token::Long => self.fault(Reason::LongName),
            _ => self.fault(Reason::Misplaced),
        }
    }

    /// Reads a name, and answers its number.
    fn name(&mut self) -> u16
        requires fresh { Fresh self.old }
        requires named { self.old.next.token ≡ Named }
        ensures { ReadHead result self.old self.new }
    {
        let number = self.outline.mention(self.next.start);
        self.advance();
        number
    }

    /// Reads a head, and answers its number.
    fn head(&mut self) -> Result<u16, ReaderFault>
        requires { Fresh self.old }
        ensures { MatchResult result (λ n. ReadHead n self.old self.new) (λ f. (d : ℕ) → BadRule (input self.old) d self.old.next f.reason f.place) }
    {
        match self.next.token {
            Token::Name => Ok(self.name()),
            _ => Err(self.no_head()),
        }
    }

    /// Reads a rule with `rest` depths left below it.
    #[cycle(body_rule)]
    fn rule(&mut self, rest: usize) -> Result<(), ReaderFault>
        requires fresh { Fresh self.old }
        requires depth { rest < deepest }
        ensures { MatchResult result (λ _. ReadRule (deepest - rest) self.old self.new) (λ f. BadRule (input self.old) (deepest - rest) self.old.next f.reason f.place) }
    {
        let number = self.head()?;
        let mut bodies = 0;
        let mut link = Token::If;
        while self.next.token == link {
            self.advance();
            self.body(rest, bodies)?;
            bodies += 1;
            link = Token::Comma;
        }
        self.outline.end(number, bodies);
        Ok(())
    }

    /// Reads a body of a rule with `rest` depths left below it, after `count` others.
    #[cycle(body_rule)]
    fn body(&mut self, rest: usize, count: u8) -> Result<(), ReaderFault>
        requires fresh { Fresh self.old }
        requires depth { rest < deepest }
        requires few { count ≤ most_bodies }
        ensures few { OnOk result (count < most_bodies) }
        ensures cases { MatchResult result (λ _. ReadBody (suc (deepest - rest)) self.old self.new) (λ f. BadBody (input self.old) (suc (deepest - rest)) count self.old.next f.reason f.place) }
    {
        match self.next.token {
            Token::Name => {
                self.room(rest, count)?;
                let number = self.name();
                self.outline.end(number, 0);
                Ok(())
            }
            Token::Open => {
                self.room(rest, count)?;
                self.advance();
                self.rule(rest - 1)?;
                self.close()
            }
            _ => Err(self.no_head()),
        }
    }

    /// Whether there is room for one more body after `count` others.
    fn room(&self, rest: usize, count: u8) -> Result<(), ReaderFault>
        requires depth { rest < deepest }
        requires few { count ≤ most_bodies }
        ensures deep { OnOk result (0 < rest) }
        ensures few { OnOk result (count < most_bodies) }
        ensures refused { IfErr result (λ f. Begins self.now.next.token → BadBody (input self.now) (suc (deepest - rest)) count self.now.next f.reason f.place) }
    {
        if rest == 0 {
            Err(self.fault(Reason::Deep))
        } else if count == BODIES {
            Err(self.fault(Reason::Ninth))
        } else {
            Ok(())
        }
    }

    /// Reads a closing bracket.
    fn close(&mut self) -> Result<(), ReaderFault>
        ensures closes { MatchResult result (λ _. self.old.next.token ≡ Closes) (λ _. self.old.next.token ≢ Closes) }
        ensures next { OnOk result (Advanced self.old self.new) }
        ensures refused { IfErr result (λ f. f ≡ record { reason = Misplaces; place = self.old.next.start }) }
    {
        if self.next.token == Token::Close {
            self.advance();
            Ok(())
        } else {
            Err(self.fault(Reason::Misplaced))
        }
    }
}

/// Reads one rule, or says what is wrong with it and where.
pub fn read_text(bytes: &[u8]) -> Result<Outline, ReaderFault>
    ensures { MatchResult result (λ o. ReadsAs bytes.now o) (λ f. Refused bytes.now f.reason f.place) }
{
    // No `?`: it would make room for one more outline, and clear it, at each rule that is read.
    if let Err(fault) = check_size(bytes) {
        return Err(fault);
    }
    let mut reader = TextReader::new(bytes);
    reader.rule(DEPTH - 1)?;
    if reader.next.token == Token::Finish {
        Ok(reader.outline)
    } else {
        Err(reader.fault(Reason::Misplaced))
    }
}

#[cfg(test)]
mod tests {
    use super::*;
    use crate::outline::End;
    use std::process::Abort;
    use std::test::Fail;

    fn refused(rt: &impl Abort, text: &[u8], reason: Reason, place: usize) -> Result<(), Fail> {
        assert_eq!(rt; read_text(text).err(), Some(ReaderFault { reason, place }));
        Ok(())
    }

    fn accepted(rt: &impl Abort, text: &[u8]) {
        assert!(rt; read_text(text).is_ok());
    }

    #[test]
    fn reads_a_rule(rt: HostRuntime) -> Result<(), Fail> {
        let Ok(outline) = read_text(b" a if (b if a), c") else {
            return Err(Fail::new("refused"));
        };
        assert!(rt; outline.places() == [1, 7, 12, 16].as_slice());
        assert!(rt;
            outline.ends()
                == [
                    End {
                        mention: 2,
                        bodies: 0,
                    },
                    End {
                        mention: 1,
                        bodies: 1,
                    },
                    End {
                        mention: 3,
                        bodies: 0,
                    },
                    End {
                        mention: 0,
                        bodies: 2,
                    },
                ]
                .as_slice()
        );
        Ok(())
    }

    #[test]
    fn refuses_what_cannot_stand_there(rt: HostRuntime) -> Result<(), Fail> {
        refused(&rt, b"", Reason::Misplaced, 0)?;
        refused(&rt, b"a if ", Reason::Misplaced, 5)?;
        refused(&rt, b"if", Reason::Misplaced, 0)?;
        refused(&rt, b"9abc", Reason::Misplaced, 0)?;
        refused(&rt, b"a if (b", Reason::Misplaced, 7)?;
        refused(&rt, b"aB", Reason::Misplaced, 1)
    }

    #[test]
    fn keeps_the_limits(rt: HostRuntime) -> Result<(), Fail> {
        let mut text = [b' '; 1025];
        text[0] = b'a';
        accepted(&rt, &text[0..1024]);
        refused(&rt, &text, Reason::Oversize, 1024)?;
        accepted(&rt, b"abcdefghijklmnop");
        refused(&rt, b"abcdefghijklmnopq", Reason::LongName, 0)?;
        accepted(&rt, b"a if b,b,b,b,b,b,b,b");
        refused(&rt, b"a if b,b,b,b,b,b,b,b,(b)", Reason::Ninth, 21)
    }

    #[test]
    fn keeps_the_depth(rt: HostRuntime) -> Result<(), Fail> {
        accepted(
            &rt,
            b"a if (a if (a if (a if (a if (a if (a if (a if (a if (a if (a if (a if (a if (a if (a if a))))))))))))))",
        );
        refused(
            &rt,
            b"a if (a if (a if (a if (a if (a if (a if (a if (a if (a if (a if (a if (a if (a if (a if (a if a",
            Reason::Deep,
            95,
        )
    }

    #[test]
    fn prefers_the_smaller_number(rt: HostRuntime) -> Result<(), Fail> {
        refused(&rt, b"a abcdefghijklmnopqrstu", Reason::Misplaced, 2)?;
        refused(&rt, b"a if b abcdefghijklmnopqrstu", Reason::Misplaced, 7)?;
        refused(
            &rt,
            b"a if b,b,b,b,b,b,b,b,abcdefghijklmnopq",
            Reason::LongName,
            21,
        )
    }
}
