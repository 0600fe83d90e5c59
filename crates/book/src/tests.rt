use crate::*;
use keys::{KeyNumber, Register};
use reader::{Name, Written};
use std::test::Fail;

#[test]
fn records_come_and_go(rt: HostRuntime) -> Result<(), Fail> {
    let a = KeyNumber { index: 0 };
    let b = KeyNumber { index: 1 };
    let mut book = Book::empty();
    assert!(rt; book.push(a, Bodies::none()).is_none(), "no name is in use");
    book.admit(2);
    let first = book
        .push(a, Bodies::none())
        .ok_or_else(|| Fail::new("full"))?;
    let mark = book.mark();
    let bodies = Bodies::none().with(first).ok_or_else(|| Fail::new("full"))?;
    let second = book.push(b, bodies).ok_or_else(|| Fail::new("full"))?;
    book.put_in_force(second);
    assert_eq!(rt; book.with_head(b).bits, 2);
    assert_eq!(rt; book.supposing(RecordSet::EMPTY, second).bits, 1);
    assert_eq!(rt; book.in_force().bits, 2);
    book.truncate(mark);
    assert_eq!(rt; book.count(), 1);
    assert_eq!(rt; book.in_force().bits, 0);
    Ok(())
}

/// The number of the record of a text, or of the refusal.
fn entered(book: &mut Book, register: &mut Register<'_, Name>, text: &[u8]) -> Result<u8, u8> {
    let outline = Name::outline(text).map_err(|_| 0)?;
    let numbers = number_keys(register, text, &outline).map_err(|fault| fault.number())?;
    let number = book
        .enter(&outline, &numbers)
        .map_err(|fault| fault.number())?;
    Ok(number.index)
}

#[test]
fn records_are_numbered_as_rules_end(rt: HostRuntime) {
    let mut slots = [Name::new(b""); 2];
    let mut register = Register::new(&mut slots);
    let mut book = Book::empty();
    assert_eq!(rt;
        entered(&mut book, &mut register, b"a if (b if a), b"),
        Ok(3)
    );
    assert_eq!(rt; book.with_head(KeyNumber { index: 0 }).bits, 0b1001);
    assert_eq!(rt;
        book.supposing(RecordSet::EMPTY, RecordNumber { index: 3 })
            .bits,
        0b110
    );
    assert_eq!(rt;
        book.supposing(RecordSet::EMPTY, RecordNumber { index: 1 })
            .bits,
        0b1
    );
    assert_eq!(rt; entered(&mut book, &mut register, b"b if c"), Err(11));
    assert_eq!(rt; register.used(), 2);
    assert_eq!(rt; book.count(), 4);
}

/// Enters `a` so many times, and gives the first refusal.
fn filled(book: &mut Book, register: &mut Register<'_, Name>, times: u8) -> Result<u8, u8> {
    for _ in 0..times {
        entered(book, register, b"a")?;
    }
    Ok(times)
}

#[test]
fn has_128_records(rt: HostRuntime) {
    let mut slots = [Name::new(b""); 1];
    let mut register = Register::new(&mut slots);
    let mut book = Book::empty();
    assert_eq!(rt; filled(&mut book, &mut register, 127), Ok(127));
    assert_eq!(rt; entered(&mut book, &mut register, b"a if a"), Err(21));
    assert_eq!(rt; book.count(), 127);
    assert_eq!(rt; entered(&mut book, &mut register, b"a"), Ok(127));
    assert_eq!(rt; entered(&mut book, &mut register, b"a"), Err(21));
    assert_eq!(rt; entered(&mut book, &mut register, b"b"), Err(11));
}

#[test]
fn members_come_by_rising_number(rt: HostRuntime) {
    let mut members = RecordSet { bits: 0b1001 }.into_iter();
    assert_eq!(rt; members.next(), Some(RecordNumber { index: 0 }));
    assert_eq!(rt; members.next(), Some(RecordNumber { index: 3 }));
    assert_eq!(rt; members.next(), None);
}
