//! What holds at one release of a chart.
ghost use Rattle.std.specs.Prelude.{◌≡◌, ℕ, ◌<◌, true, length, Decides, slice_index};
ghost use Rattle.logic.specs.Sets.{Has};
ghost use Rattle.book.specs.Books.{records_of};
ghost use Rattle.charts.specs.Bits.{bit};
ghost use Rattle.charts.specs.Judging.{HoldAt};

use crate::bits::test_bit;
use crate::chart::Chart;
use crate::evaluation::evaluate;
use book::{Book, RecordNumber, RecordSet};

/// Whether all the rules of a set hold at a release, and whether a goal does.
#[derive(Clone, Copy, PartialEq, Debug)]
pub struct Holding {
    pub rules: bool,
    pub goal: bool,
}

/// Tells whether the release is in the mask of each record of `rules` that has a mask.
fn all_hold(masks: &[u64], rules: RecordSet, release: usize) -> bool
    ensures { Decides result ((k : ℕ) → k < length masks.now → Has rules.bits k → bit (slice_index masks.now k) release ≡ true) }
{
    rules.into_iter().all(|number| {
        masks
            .get(number.index as usize)
            .is_none_or(|mask| test_bit(*mask, release))
    })
}

/// Tells what holds at `release`: all the records of `rules`, and the record `goal`; nothing where the chart has no such release.
pub fn hold_at<C: Chart>(
    chart: &C,
    book: &Book,
    rules: RecordSet,
    goal: RecordNumber,
    release: usize,
) -> Option<Holding>
    ensures { HoldAt (C.value chart.now) (records_of book.now) rules.bits goal.index release result }
{
    if release >= chart.size() {
        return None;
    }
    let masks = evaluate(chart, book);
    Some(Holding {
        rules: all_hold(&masks[..book.count()], rules, release),
        goal: test_bit(masks[goal.index as usize], release),
    })
}
