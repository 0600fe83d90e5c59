//! A make of charts outside the library, and code that knows a chart by its laws only.
#![tactic(auto)]

ghost use Rattle.std.specs.Prelude.{◌≡◌, true, ◌+◌};
ghost use Rattle.book.specs.Books.{records_of};
ghost use Rattle.charts.specs.Judging.{HoldAt};
ghost use Rattle.outside.specs.Forks.{fork};
ghost use Rattle.std.proofs.Common.{rules};

use book::{Book, RecordNumber, RecordSet};
use charts::{Chart, Holding, Line, hold_at};
use keys::NAMES;

/// How many releases a fork has.
const RELEASES: usize = 3;

/// The number that a fork's releases carry, or none of them.
const NUMBER: usize = 5;

/// A fork: releases 1 and 2 follow release 0; all carry the number 5, or none does.
#[derive(Clone, Copy)]
pub struct Fork {
    pub carried: bool,
}

impl Chart for Fork {
    ghost value = { λ c. fork c.carried };

    ghost ranged = { Prim.search rules };

    ghost reflexive = { Prim.search rules };

    ghost transitive = { Prim.search rules };

    ghost persistent = { Prim.search rules };

    fn size(&self) -> usize {
        RELEASES
    }

    fn follows(&self, release: usize, later: usize) -> bool {
        later < RELEASES && (later == release || release == 0)
    }

    fn carries(&self, release: usize, number: usize) -> bool {
        release < RELEASES && number == NUMBER && self.carried
    }
}

/// Tells whether `later` still carries `number` if it follows `release`, which carries it: in every chart it does.
pub fn still_carried<C: Chart>(chart: &C, release: usize, later: usize, number: usize) -> bool
    ensures { result ≡ true }
{
    let holds_before = chart.follows(release, later) && chart.carries(release, number);
    !holds_before || chart.carries(later, number)
}

/// The last release of a chart; every chart has one.
pub fn last_release<C: Chart>(chart: &C) -> usize
    ensures { result + 1 ≡ (C.value chart.now).size }
{
    chart.size() - 1
}

/// Tells what holds at release 0 of a fork.
pub fn at_the_fork(
    tree: &Fork,
    book: &Book,
    rules: RecordSet,
    goal: RecordNumber,
) -> Option<Holding>
    ensures { HoldAt (fork tree.now.carried) (records_of book.now) rules.bits goal.index 0 result }
{
    hold_at(tree, book, rules, goal, 0)
}

/// Two releases in a row: the second follows the first.
pub fn second_follows(first: &[u8; NAMES]) -> bool
    ensures { result ≡ true }
{
    let mut line = Line::new();
    line.fill(2, first).is_err() || line.follows(0, 1)
}
