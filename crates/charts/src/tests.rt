//! What charts tell on examples.
use crate::chart::Chart;
use crate::{ChartFault, Holding, Line, Map, hold_at};
use book::{Bodies, Book, RecordNumber, RecordSet};
use keys::KeyNumber;
use std::test::Fail;

/// The records of `a`, `b if a` and `a if (b if a)`, with a as 0 and b as 1.
fn records() -> Option<Book> {
    let mut book = Book::empty();
    book.admit(2);
    let a = book.push(KeyNumber { index: 0 }, Bodies::none())?;
    let b = book.push(KeyNumber { index: 1 }, Bodies::none().with(a)?)?;
    let _ = book.push(KeyNumber { index: 0 }, Bodies::none().with(b)?)?;
    Some(book)
}

/// A line of two releases, a from 1 and b never: `a if (b if a)` holds at 0, and neither `a` nor `b if a` does.
#[test]
fn a_rule_is_judged_with_the_followers(rt: HostRuntime) -> Result<(), Fail> {
    let Some(book) = records() else {
        return Err(Fail::new("no book"));
    };
    let mut line = Line::new();
    let mut first = [2; 64];
    first[0] = 1;
    assert!(rt; line.fill(2, &first).is_ok());
    let rules = RecordSet { bits: 4 };
    let told = Some(Holding {
        rules: true,
        goal: false,
    });
    assert!(rt; hold_at(&line, &book, rules, RecordNumber { index: 0 }, 0) == told);
    assert!(rt; hold_at(&line, &book, rules, RecordNumber { index: 1 }, 0) == told);
    assert!(rt; hold_at(&line, &book, rules, RecordNumber { index: 1 }, 2).is_none());
    Ok(())
}

/// Tells whether a map of these lists is refused with this number and place.
fn refused(followers: &[u64], names: &[u64], number: u8, place: usize) -> bool {
    let mut map = Map::new();
    map.fill(followers, names)
        .is_err_and(|fault| fault.number() == number && fault.place() == place)
        && map.size() == 1
}

/// The numbers and places of refused maps and lines; a refused line stays.
#[test]
fn refusals_have_their_places(rt: HostRuntime) {
    assert!(rt; refused(&[1, 2], &[0], 41, 0));
    assert!(rt; refused(&[1, 1], &[0, 0], 42, 1));
    assert!(rt; refused(&[1, 6, 5], &[0, 0, 0], 43, 1));
    assert!(rt; refused(&[1, 3], &[0, 1], 44, 1));
    let mut line = Line::new();
    assert!(rt; line.fill(65, &[0; 64]) == Err(ChartFault::Misfit));
    assert!(rt; line.size() == 1 && !line.carries(0, 0));
}
