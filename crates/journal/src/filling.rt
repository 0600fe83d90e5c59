//! The charts that a journal fills.
use crate::words::{Split, hex_bytes, hex_word, number, split_once};
use charts::{AnyChart, ChartFault, Line, Map, Single};
use std::alloc::Global;

/// Fills a chart as the words say: `single W`, `line N BYTES` or `map F/N F/N ..`. Nothing where they say none, or where memory has no
/// room for the lists.
pub fn read_chart(heap: Global, words: &[u8]) -> Option<Result<AnyChart, ChartFault>> {
    if words == b"map".as_slice() {
        return Some(fill_map(&[], &[]));
    }
    let Split { word, rest } = split_once(words, b' ')?;
    match word {
        b"single" => read_single(rest),
        b"line" => read_line(heap, rest),
        b"map" => read_map(heap, rest),
        _ => None,
    }
}

/// `W`
fn read_single(word: &[u8]) -> Option<Result<AnyChart, ChartFault>> {
    let mut chart = Single::new();
    chart.fill(hex_word(word)?);
    Some(Ok(AnyChart::Single(chart)))
}

/// `N BYTES`
fn read_line(heap: Global, words: &[u8]) -> Option<Result<AnyChart, ChartFault>> {
    let Split { word, rest } = split_once(words, b' ')?;
    let size = number(word)?;
    let first = hex_bytes(heap, rest)?;
    let mut chart = Line::new();
    let filled = chart.fill(size as usize, &first);
    Some(filled.map(|()| AnyChart::Line(chart)))
}

/// `F/N F/N ..`
fn read_map(heap: Global, words: &[u8]) -> Option<Result<AnyChart, ChartFault>> {
    // Two lists, as `Map::fill` takes them.
    let mut followers = Vec::new(heap);
    let mut names = Vec::new(heap);
    for release in words.split(|byte| *byte == b' ') {
        let Split { word, rest } = split_once(release, b'/')?;
        followers.push(hex_word(word)?).ok()?;
        names.push(hex_word(rest)?).ok()?;
    }
    Some(fill_map(&followers, &names))
}

/// The map of these lists.
fn fill_map(followers: &[u64], names: &[u64]) -> Result<AnyChart, ChartFault> {
    let mut chart = Map::new();
    chart.fill(followers, names)?;
    Ok(AnyChart::Map(chart))
}
