//! Books made by chance, the same in each run.
use crate::nodes::Node;
use std::alloc::{AllocError, Global};

/// A rule has no more bodies.
const BODIES: u8 = 8;

/// How a number of chance comes out of the one before it.
const MULTIPLIER: u64 = 6_364_136_223_846_793_005;

const INCREMENT: u64 = 1_442_695_040_888_963_407;

/// The low bits of a number of chance, which are left out.
const LOW_BITS: u32 = 33;

/// The numbers that chance brings, one out of the other.
#[derive(Clone, Copy)]
pub struct Chance {
    state: u64,
}

impl Chance {
    /// The same chance each time.
    pub fn new() -> Chance {
        Chance { state: 1 }
    }

    /// The next number, below a limit.
    pub fn below(&mut self, limit: u8) -> u8 {
        self.state = self.state.wrapping_mul(MULTIPLIER).wrapping_add(INCREMENT);
        let number = (self.state >> LOW_BITS) % u64::from(limit.max(1));
        // Never 0 for want of room: the number is below a limit of eight bits.
        u8::try_from(number).unwrap_or(0)
    }
}

/// How large a book is to be.
#[derive(Clone, Copy)]
pub struct Size {
    pub nodes: u8,
    pub names: u8,
    pub depth: u8,
}

/// What a book under way knows: the first head that no node has, and, down to its last node, how many nodes stand at each depth below
/// the same node.
#[derive(Drop)]
struct Growth {
    unused: u8,
    standing: Vec<u8>,
}

impl Growth {
    /// Where the next node lies: at most one deeper than the last, and in no rule that has all its bodies.
    fn next_depth(&self, chance: &mut Chance, deepest: u8) -> u8 {
        let last = u8::try_from(self.standing.len()).unwrap_or(u8::MAX);
        let above = chance.below(last.min(deepest.saturating_sub(1)).saturating_add(1));
        let standing = self.standing.get(usize::from(above));
        if standing.is_some_and(|standing| *standing >= BODIES) {
            1
        } else {
            above.saturating_add(1)
        }
    }

    /// Takes a node in.
    fn take(&mut self, node: Node) -> Result<(), AllocError> {
        self.unused = self.unused.max(node.head.saturating_add(1));
        self.standing.resize(usize::from(node.depth), 0)?;
        if let Some(standing) = self.standing.last_mut() {
            *standing = standing.saturating_add(1);
        }
        Ok(())
    }
}

/// The nodes of a book of this size.
pub fn book_by_chance(
    heap: Global,
    chance: &mut Chance,
    size: Size,
) -> Result<Vec<Node>, AllocError> {
    let mut nodes = Vec::new(heap);
    let mut growth = Growth {
        unused: 0,
        standing: Vec::new(heap),
    };
    for _ in 0..size.nodes {
        let depth = growth.next_depth(chance, size.depth);
        let head = chance.below(growth.unused.saturating_add(1).min(size.names));
        let node = Node { depth, head };
        growth.take(node)?;
        nodes.push(node)?;
    }
    Ok(nodes)
}
