//! A journal as it is read, line by line.
use crate::entry::Entry;
use crate::filling::read_chart;
use crate::words::{Split, hex_bytes, number, split_once};
use charts::{AnyChart, Single};
use prover::Restart;
use service::Call;
use service::limits::TREE_BYTES;
use std::alloc::{AllocError, Global};

/// The lines read so far, and what they hand to their calls.
#[derive(Drop)]
pub struct Journal<'j> {
    pub entries: Vec<Entry<'j>>,
    /// The bytes of the trees to be checked, those of each check behind those of the one before.
    // One list: a list in each check would take more memory than most trees do.
    pub trees: Vec<u8>,
    /// The charts that were filled, behind a single release that carries nothing.
    pub charts: Vec<AnyChart>,
    /// The room for the trees to be found, that of each ask behind that of the one before.
    pub found: Vec<u8>,
}

impl<'j> Journal<'j> {
    /// No lines.
    fn new(heap: Global) -> Result<Journal<'j>, AllocError> {
        Ok(Journal {
            entries: Vec::new(heap),
            trees: Vec::new(heap),
            charts: vec![in heap; AnyChart::Single(Single::new())]?,
            found: Vec::new(heap),
        })
    }

    /// Reads the lines of a text.
    pub fn read(heap: Global, text: &'j [u8]) -> Result<Journal<'j>, AllocError> {
        let mut journal = Journal::new(heap)?;
        for line in text.split_inclusive(|byte| *byte == b'\n') {
            let line = line.strip_suffix(b"\n").unwrap_or(line);
            let entry = journal.entry(line).unwrap_or(Entry::Unread);
            journal.entries.push(entry)?;
        }
        Ok(journal)
    }

    /// The entry that a line writes; nothing where it writes none, or where memory has no room for what it hands.
    fn entry(&mut self, line: &'j [u8]) -> Option<Entry<'j>> {
        match line {
            b"seal" => Some(Entry::Call(Call::Seal)),
            b"reopen" => Some(Entry::Call(Call::Reopen)),
            b"withdraw" => Some(Entry::Call(Call::Withdraw)),
            _ => self.entry_of_words(line),
        }
    }

    /// The entry of a line of several words.
    fn entry_of_words(&mut self, line: &'j [u8]) -> Option<Entry<'j>> {
        let Split { word, rest } = split_once(line, b' ')?;
        match word {
            b"add" => Some(Entry::Call(Call::Add(rest))),
            b"suppose" => Some(Entry::Call(Call::Suppose(rest))),
            b"ask" => self.ask(rest, Restart::Forbidden),
            b"ask*" => self.ask(rest, Restart::Allowed),
            b"check" => self.check(rest, Restart::Forbidden),
            b"check*" => self.check(rest, Restart::Allowed),
            b"look" => self.look(rest),
            b"chart" => self.chart(rest),
            _ => None,
        }
    }

    /// `BUDGET ROOM GOAL`
    fn ask(&mut self, words: &'j [u8], restart: Restart) -> Option<Entry<'j>> {
        let Split { word, rest } = split_once(words, b' ')?;
        let budget = number(word)?;
        let Split { word, rest } = split_once(rest, b' ')?;
        // A buffer with over the most bytes of a tree is refused untouched, so one byte over is as good as any more.
        let room = (number(word)? as usize).min(TREE_BYTES + 1);
        let end = self.found.len().checked_add(room)?;
        self.found.resize(end, 0).ok()?;
        Some(Entry::Call(Call::Ask {
            goal: rest,
            restart,
            budget,
            room,
        }))
    }

    /// `TREE GOAL`
    fn check(&mut self, words: &'j [u8], restart: Restart) -> Option<Entry<'j>> {
        let Split { word, rest } = split_once(words, b' ')?;
        let tree = hex_bytes(*self.trees.allocator(), word)?;
        self.trees.extend_from_slice(&tree).ok()?;
        Some(Entry::Check {
            goal: rest,
            restart,
            length: tree.len(),
        })
    }

    /// `RELEASE GOAL`
    fn look(&self, words: &'j [u8]) -> Option<Entry<'j>> {
        let Split { word, rest } = split_once(words, b' ')?;
        Some(Entry::Call(Call::Look {
            goal: rest,
            chart: self.charts.len().checked_sub(1)?,
            release: number(word)? as usize,
        }))
    }

    /// A make and what it is filled from.
    fn chart(&mut self, words: &[u8]) -> Option<Entry<'j>> {
        let filled = read_chart(*self.charts.allocator(), words)?;
        if let Ok(chart) = filled {
            self.charts.push(chart).ok()?;
        }
        Some(Entry::Chart(filled.map(|_| ())))
    }
}
