//! The books that are compared.
use crate::asking::Changes;
use crate::cases::Case;
use crate::chance::{Chance, Size, book_by_chance};
use crate::comparing::Comparison;
use crate::every::{Depth, Head, go_on, put_back};
use crate::looking::{Pair, pairs};
use crate::nodes::Node;
use reader::{FeatureCode, Name};
use std::alloc::{AllocError, Global};

/// All books of up to so many nodes are asked.
const MOST_ASKED: usize = 6;
/// The trees of all books of up to so many nodes are changed byte by byte.
const MOST_CHANGED: usize = 5;
/// All charts are looked at over books of up to so many nodes, and so of names.
const MOST_LOOKED: u8 = 4;
/// In so many ways can the nodes of such a book lie, and be named, at most.
const MOST_WAYS: usize = 203;
/// Books of so many nodes are made by chance.
const SIZES: &[u8] = &[8, 12, 16, 24, 32];
/// So many books of each size are made by chance.
const BY_CHANCE: u32 = 100;
/// Books made by chance have fewer names than this.
const NAMES: u8 = 7;
/// The books made by chance over so many names are looked at.
const NAMES_LOOKED: u8 = 2;

/// The lawful charts over 1 to 4 names, by the last of the names.
#[derive(Drop)]
struct Charts {
    by_last_name: Vec<Vec<Pair>>,
}

impl Charts {
    fn new(heap: Global) -> Result<Charts, AllocError> {
        let by_last_name = (1..=MOST_LOOKED)
            .map(|names| pairs(heap, names))
            .try_collect(heap)?;
        Ok(Charts { by_last_name })
    }

    /// The charts over the names of a book, where it is small enough to be looked at. Heads are numbered from 0 as they appear.
    fn over(&self, nodes: &[Node]) -> &[Pair] {
        if nodes.len() > usize::from(MOST_LOOKED) {
            return &[];
        }
        nodes
            .iter()
            .map(|node| node.head)
            .max()
            .and_then(|last_name| self.by_last_name.get(usize::from(last_name)))
            .map_or(&[], |pairs| pairs.as_slice())
    }
}

impl Comparison {
    /// Compares the book that nodes write down. How many of its rules are added goes by its turn; the others are supposed.
    fn compare_book(
        &mut self,
        nodes: &[Node],
        changes: Changes,
        charts: &[Pair],
    ) -> Result<(), AllocError> {
        let case = Case::new(self.heap, nodes)?;
        let ways = case.in_book().len().saturating_add(1);
        let added = self.counts.books % ways;
        self.counts.books = self.counts.books.saturating_add(1);
        self.compare_in::<Name>(&case, added, changes, charts)?;
        self.compare_in::<FeatureCode>(&case, added, Changes::LeftOut, &[])
    }

    /// Compares a small book by all that its size allows.
    fn compare_small(&mut self, nodes: &[Node], charts: &Charts) -> Result<(), AllocError> {
        let changes = if nodes.len() <= MOST_CHANGED {
            Changes::Made
        } else {
            Changes::LeftOut
        };
        self.compare_book(nodes, changes, charts.over(nodes))
    }

    /// Every way in which the nodes can be named.
    fn every_naming(&mut self, nodes: &mut [Node], charts: &Charts) -> Result<(), AllocError> {
        put_back::<Head>(nodes);
        // The loop counts, to be seen to end.
        for _ in 0..MOST_WAYS {
            self.compare_small(nodes, charts)?;
            if !go_on::<Head>(nodes) {
                break;
            }
        }
        Ok(())
    }

    /// Every book of so many nodes.
    fn every_book_of(&mut self, size: usize, charts: &Charts) -> Result<(), AllocError> {
        let mut nodes = vec![in self.heap; Node { depth: 1, head: 0 }; size]?;
        // The loop counts, to be seen to end.
        for _ in 0..MOST_WAYS {
            self.every_naming(&mut nodes, charts)?;
            if !go_on::<Depth>(&mut nodes) {
                break;
            }
        }
        Ok(())
    }

    /// Every small book.
    pub fn every_book(&mut self) -> Result<(), AllocError> {
        let charts = Charts::new(self.heap)?;
        for size in 1..=MOST_ASKED {
            self.every_book_of(size, &charts)?;
        }
        Ok(())
    }

    /// Many books of a size, made by chance, looked at with these charts.
    fn many_by_chance(
        &mut self,
        chance: &mut Chance,
        size: Size,
        charts: &[Pair],
    ) -> Result<(), AllocError> {
        for _ in 0..BY_CHANCE {
            let nodes = book_by_chance(self.heap, chance, size)?;
            self.compare_book(&nodes, Changes::Made, charts)?;
        }
        Ok(())
    }

    /// Books of so many nodes made by chance, over 2 to 6 names; those over two names are looked at with all charts.
    fn by_chance_of(
        &mut self,
        chance: &mut Chance,
        nodes: u8,
        over_two: &[Pair],
    ) -> Result<(), AllocError> {
        for names in NAMES_LOOKED..NAMES {
            let size = Size {
                nodes,
                names,
                depth: 2 + names % 3,
            };
            let charts = if names == NAMES_LOOKED { over_two } else { &[] };
            self.many_by_chance(chance, size, charts)?;
        }
        Ok(())
    }

    /// Larger books made by chance.
    pub fn by_chance(&mut self) -> Result<(), AllocError> {
        let mut chance = Chance::new();
        let over_two = pairs(self.heap, NAMES_LOOKED)?;
        for nodes in SIZES {
            self.by_chance_of(&mut chance, *nodes, &over_two)?;
        }
        Ok(())
    }
}
