//! At which releases of a chart the records of a book hold.
ghost use Rattle.std.specs.Prelude.{◌≡◌, ℕ, ◌<◌, ◌≤◌, false, Decides, slice_index};
ghost use Rattle.charts.specs.Bits.{bit};
ghost use Rattle.book.specs.Books.{records_of};
ghost use Rattle.book.specs.Records.{numbers};
ghost use Rattle.charts.specs.Evaluation.{Rows, Meets, AllSet, Evaluated};
ghost use Rattle.charts.specs.Limits.{most_releases};

use crate::bits::{bits_where, is_within};
use crate::chart::Chart;
use crate::limits::RELEASES;
use book::{Bodies, Book, RECORDS, RecordNumber};

/// The set of the followers of `release`.
fn followers_of<C: Chart>(chart: &C, release: usize) -> u64
    ensures { (v : ℕ) → bit result v ≡ (C.value chart.now).follows release v }
{
    bits_where(chart.size(), |later| chart.follows(release, later))
}

/// The set of the releases that carry `number`.
fn carriers_of<C: Chart>(chart: &C, number: usize) -> u64
    ensures { (w : ℕ) → bit result w ≡ (C.value chart.now).carries w number }
{
    bits_where(chart.size(), |release| chart.carries(release, number))
}

/// The set of the followers of each release.
fn rows<C: Chart>(chart: &C) -> [u64; RELEASES]
    ensures { Rows (C.value chart.now) result }
{
    let mut words = [0; RELEASES];
    // Only the chart's own releases are asked about.
    for (release, word) in words[..chart.size()].iter_mut().enumerate() {
        *word = followers_of(chart, release);
    }
    words
}

/// The set of the releases below `size` each of whose followers in `met` is in `carriers`.
fn holding(followers: &[u64; RELEASES], size: usize, met: u64, carriers: u64) -> u64
    requires { size ≤ most_releases }
    ensures holds { (w : ℕ) → w < size → Decides (bit result w) (Meets (slice_index followers.now w) met carriers) }
    ensures beyond { (w : ℕ) → size ≤ w → bit result w ≡ false }
{
    bits_where(size, |w| is_within(followers[w] & met, carriers))
}

/// The set of the releases at which all these bodies hold.
fn bodies_hold(masks: &[u64; RECORDS], bodies: &Bodies) -> u64
    ensures { (v : ℕ) → v < most_releases → Decides (bit result v) (AllSet masks.now (numbers bodies.now) v) }
{
    bodies
        .as_slice()
        .iter()
        .fold(u64::MAX, |met, body| met & masks[body.index as usize])
}

/// For each record of the book, the set of the releases at which it holds; bodies come before what they are bodies of.
pub fn evaluate<C: Chart>(chart: &C, book: &Book) -> [u64; RECORDS]
    ensures { Evaluated (C.value chart.now) (records_of book.now) result }
{
    let followers = rows(chart);
    // The masks lie beside the records of the book, number by number: the book is only lent.
    let mut masks = [0; RECORDS];
    // By number: a record's mask is made of the masks of the records before it.
    for r in 0..book.count() {
        let number = RecordNumber { index: r as u8 };
        let met = bodies_hold(&masks, book.bodies(number));
        let carriers = carriers_of(chart, book.head(number).index as usize);
        masks[r] = holding(&followers, chart.size(), met, carriers);
    }
    masks
}
