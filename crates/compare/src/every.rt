//! Every book of a number of nodes.
use crate::nodes::Node;

/// A part of the nodes of a book that goes through all its values. The first node has the least, and no node has more than its bound.
pub trait Part {
    /// The least value, and the bound of the first node.
    const LEAST: u8;

    /// The part of a node.
    fn of(node: &Node) -> u8;

    /// The node with another value.
    fn with(node: Node, value: u8) -> Node;

    /// The bound of the node behind one with this bound and value.
    fn bound_behind(bound: u8, value: u8) -> u8;
}

/// How the nodes lie. As no node is more than one deeper than the one in front of it, there are 1, 2, 5, 14, 42 and 132 ways for 1 to 6
/// nodes.
pub enum Depth {}

impl Part for Depth {
    const LEAST: u8 = 1;

    fn of(node: &Node) -> u8 {
        node.depth
    }

    fn with(node: Node, depth: u8) -> Node {
        Node { depth, ..node }
    }

    fn bound_behind(_bound: u8, depth: u8) -> u8 {
        depth.saturating_add(1)
    }
}

/// How the nodes are named. As heads are numbered by first appearance, there are 1, 2, 5, 15, 52 and 203 ways for 1 to 6 nodes.
pub enum Head {}

impl Part for Head {
    const LEAST: u8 = 0;

    fn of(node: &Node) -> u8 {
        node.head
    }

    fn with(node: Node, head: u8) -> Node {
        Node { head, ..node }
    }

    fn bound_behind(bound: u8, head: u8) -> u8 {
        bound.max(head.saturating_add(1))
    }
}

/// The place of the last node that is below its bound.
// A loop: a chain would need scan, enumerate, filter and last.
fn last_to_rise<P: Part>(nodes: &[Node]) -> Option<usize> {
    let mut last = None;
    let mut bound = P::LEAST;
    for (place, node) in nodes.iter().enumerate() {
        let value = P::of(node);
        if value < bound {
            last = Some(place);
        }
        bound = P::bound_behind(bound, value);
    }
    last
}

/// Puts a part of all nodes back to the least.
pub fn put_back<P: Part>(nodes: &mut [Node]) {
    for node in nodes {
        *node = P::with(*node, P::LEAST);
    }
}

/// Goes on to the next values of a part, and tells whether there are any; the first are the least.
// A `bool`: the nodes are changed in place, and an Option would have nothing to hold.
pub fn go_on<P: Part>(nodes: &mut [Node]) -> bool {
    let Some(place) = last_to_rise::<P>(nodes) else {
        return false;
    };
    if let Some((node, behind)) = nodes
        .get_mut(place..)
        .and_then(|changed| changed.split_first_mut())
    {
        *node = P::with(*node, P::of(node).saturating_add(1));
        put_back::<P>(behind);
    }
    true
}
